// The tree of a text, built as a manifest's bytes in a lent output: a function for each action of the grammar. A byte past the output's end is
// not written, and nothing else changes: with no output at all the same calls find a text's faults and its manifest's size.
#![tactic(auto)]

ghost use Rattle.std.specs.Prelude.{◌≡◌, List, [], ◌∷◌, ◌++◌, true, ℕ, ◌+◌, ◌-◌, ◌*◌, ◌%◌, ◌≤◌, ◌<◌, max, length, Some};
ghost use Rattle.wire.specs.Numbers.{high_bytes};
ghost use Rattle.wire.specs.Runs.{bytes_at, over};
ghost use Rattle.notation.specs.Building.{start, begin as begin_action, close as close_action, constant as constant_action, named as named_action, parent_first as parent_action, around as around_action, instead as instead_action, byte, read as read_action, enter as enter_action, leave as leave_action, void as void_action};
ghost use Rattle.tree_builder.specs.State.{slot_number, opened_at, with_part, raised, closed_into, late_with};
ghost use Rattle.tree_builder.specs.Shows.{Shows, Does, AnyToken, AnInteger, AString, ABoolean, IsWord, AName, AVariable, AClassVariable, Ready};

// The field being read, what is open around it, and how far the output is filled.
// The fields of eight bytes come first, so that no gap lies between fields: with gaps each copy takes longer, as measured.
#[derive(Clone, Copy)]
pub struct Building {
    pub brackets: usize, // round brackets that are open
    pub depth: usize, // fields around
    pub fill: usize,
    pub start: usize, // where the field being read starts
    pub body: usize, // where its parts do
    pub tallest: usize, // how tall they are; 0 where there is none
    pub last: usize, // where the last part starts
    pub height: usize, // and its height
    pub late: usize, // the place + 1 of the first constant on a line past 255, or 0
    pub before: usize, // what it was before a string constant just read
    pub name: u16, // and that string's name
    pub word: bool, // whether the last part is such a constant
}

// The state before the first token: nothing is open but what stands for the manifest.
pub fn nothing() -> Building
    ensures { (table : List (List ℕ)) → (frames out : List ℕ) → Shows table result frames out start }
{
    Building {
        brackets: 0,
        depth: 0,
        fill: 0,
        start: 0,
        body: 0,
        tallest: 0,
        last: 0,
        height: 0,
        late: 0,
        before: 0,
        name: 0,
        word: false,
    }
}

// ---- Round brackets

pub fn enter(s: Building) -> Option<Building>
    ensures { (frames out : List ℕ) → Does AnyToken enter_action s frames out result frames out }
{
    if 32 <= s.brackets {
        return None;
    }
    let mut next = s;
    next.brackets = s.brackets + 1;
    Some(next)
}

pub fn leave(s: Building) -> Option<Building>
    ensures { (frames out : List ℕ) → Does AnyToken leave_action s frames out result frames out }
{
    if s.brackets == 0 {
        return None;
    }
    let mut next = s;
    next.brackets = s.brackets - 1;
    Some(next)
}

// ---- Fields begin and end

fn taller(a: usize, b: usize) -> usize
    ensures { result ≡ max a b }
{
    if a < b { b } else { a }
}

// A field begins at `start`, and its parts at `body`: none so far, or one up to `fill`.
fn opened(s: Building, start: usize, body: usize, fill: usize, tall: usize, late: usize) -> Building
    requires { s.depth ≤ 32 }
    ensures { result ≡ opened_at s start body fill tall late }
{
    Building {
        brackets: s.brackets,
        depth: s.depth + 1,
        fill,
        start,
        body,
        tallest: tall,
        last: body,
        height: tall,
        late,
        before: 0,
        name: 0,
        word: false,
    }
}

// The field being read goes to its slot.
fn save(frames: &mut [u8], s: Building)
    requires { Ready s }
    ensures { frames.new ≡ over frames.old (8 * s.depth) (high_bytes 8 (slot_number s.start s.body s.tallest)) }
{
    let slot = s.start * 268435456 + (s.body * 64 + s.tallest);
    wire::put_eight(frames, 8 * s.depth, slot as u64);
}

pub fn begin(out: &mut [u8], frames: &mut [u8], s: Building, tag: u8) -> Option<Building>
    requires { (256 ≤ length frames.old) × Ready s }
    ensures { Does AnyToken (begin_action tag) s frames.old out.old result frames.new out.new }
{
    if 32 <= s.depth {
        return None;
    }
    save(frames, s);
    let at = s.fill;
    wire::put_header(out, at, tag, 0);
    Some(opened(s, at, at + 3, at + 3, 0, s.late))
}

// The field ends: the one around it comes from its slot.
fn closed(s: Building, slot: u64) -> Building
    requires { (0 < s.depth) × Ready s }
    ensures { result ≡ closed_into s slot }
{
    let height = s.tallest + 1;
    Building {
        brackets: s.brackets,
        depth: s.depth - 1,
        fill: s.fill,
        start: (slot / 268435456) as usize,
        body: (slot / 64 % 4194304) as usize,
        tallest: taller((slot % 64) as usize, height),
        last: s.start,
        height,
        late: s.late,
        before: 0,
        name: 0,
        word: false,
    }
}

// The field's length is known now. One that does not fit two bytes is of a tree that does not fit the output.
pub fn close(out: &mut [u8], frames: &[u8], s: Building) -> Option<Building>
    requires { (256 ≤ length frames.now) × Ready s }
    ensures { Does AnyToken close_action s frames.now out.old result frames.now out.new }
{
    if s.depth == 0 {
        return None;
    }
    let size = s.fill - s.start - 3;
    wire::put_two(out, s.start + 1, (size % 65536) as u16);
    let slot = wire::number_in(frames, 8 * (s.depth - 1));
    Some(closed(s, slot))
}

// ---- Fields of one token

// A part of one level.
fn with_part(s: Building, size: usize, late: usize) -> Building
    requires { (size ≤ 12) × Ready s }
    ensures { result ≡ with_part s size late }
{
    Building {
        brackets: s.brackets,
        depth: s.depth,
        fill: s.fill + size,
        start: s.start,
        body: s.body,
        tallest: taller(s.tallest, 1),
        last: s.fill,
        height: 1,
        late,
        before: 0,
        name: 0,
        word: false,
    }
}

// The first constant on a line past 255, with one more.
fn late_with(late: usize, line: usize, place: usize) -> usize
    requires { place ≤ 1048576 }
    ensures { result ≡ late_with late line place }
{
    if late != 0 {
        return late;
    }
    if line <= 255 {
        return 0;
    }
    place + 1
}

// The header of a constant, and its label: of a line past 255, what a byte holds.
fn put_label(out: &mut [u8], at: usize, tag: u8, size: u16, line: usize)
    requires { at ≤ 1048576 }
    ensures { out.new ≡ over out.old at (tag ∷ high_bytes 2 size ++ (line % 256 ∷ [])) }
{
    wire::put_header(out, at, tag, size);
    wire::put_byte(out, at + 3, (line % 256) as u8);
}

pub fn add_void(out: &mut [u8], s: Building, tag: u8) -> Option<Building>
    requires { Ready s }
    ensures { (frames : List ℕ) → Does AnyToken (void_action tag) s frames out.old result frames out.new }
{
    if 32 <= s.depth {
        return None;
    }
    wire::put_header(out, s.fill, tag, 0);
    Some(with_part(s, 3, s.late))
}

// A variable (13) or a top variable (14).
pub fn add_variable(out: &mut [u8], s: Building, tag: u8, name: u16) -> Option<Building>
    requires { Ready s }
    ensures { (frames : List ℕ) → Does (AVariable tag name) read_action s frames out.old result frames out.new }
{
    if 32 <= s.depth {
        return None;
    }
    wire::put_header(out, s.fill, tag, 2);
    wire::put_two(out, s.fill + 3, name);
    Some(with_part(s, 5, s.late))
}

pub fn add_class_variable(out: &mut [u8], s: Building, class: u16, name: u16) -> Option<Building>
    requires { Ready s }
    ensures { (frames : List ℕ) → Does (AClassVariable class name) read_action s frames out.old result frames out.new }
{
    if 32 <= s.depth {
        return None;
    }
    wire::put_header(out, s.fill, 0x15, 4);
    wire::put_two(out, s.fill + 3, class);
    wire::put_two(out, s.fill + 5, name);
    Some(with_part(s, 7, s.late))
}

pub fn add_integer(
    out: &mut [u8],
    s: Building,
    line: usize,
    place: usize,
    value: i64,
) -> Option<Building>
    requires { (place ≤ 1048576) × Ready s }
    ensures { (frames : List ℕ) → Does (AnInteger line place value) constant_action s frames out.old result frames out.new }
{
    if 32 <= s.depth {
        return None;
    }
    put_label(out, s.fill, 0x10, 9, line);
    wire::put_signed(out, s.fill + 4, value);
    let late = late_with(s.late, line, place);
    Some(with_part(s, 12, late))
}

pub fn add_boolean(
    out: &mut [u8],
    s: Building,
    line: usize,
    place: usize,
    value: u8,
) -> Option<Building>
    requires { (place ≤ 1048576) × Ready s }
    ensures { (frames : List ℕ) → Does (ABoolean line place value) constant_action s frames out.old result frames out.new }
{
    if 32 <= s.depth {
        return None;
    }
    put_label(out, s.fill, 0x12, 2, line);
    wire::put_byte(out, s.fill + 4, value);
    let late = late_with(s.late, line, place);
    Some(with_part(s, 5, late))
}

// A string constant. It is remembered as the last part: it may turn out to be the name of a field.
pub fn add_string(
    out: &mut [u8],
    s: Building,
    line: usize,
    place: usize,
    name: u16,
) -> Option<Building>
    requires { (place ≤ 1048576) × Ready s }
    ensures { ((frames : List ℕ) → Does (AString line place name) constant_action s frames out.old result frames out.new) × IsWord result }
{
    if 32 <= s.depth {
        return None;
    }
    put_label(out, s.fill, 0x11, 3, line);
    wire::put_two(out, s.fill + 4, name);
    let late = late_with(s.late, line, place);
    let mut next = with_part(s, 6, late);
    next.word = true;
    next.name = name;
    next.before = s.late;
    Some(next)
}

// ---- Bytes before others

// Moves the bytes from `from` up to `to` further up by `by`, the last first. What would come past the output's end is left out.
fn move_up(out: &mut [u8], from: usize, to: usize, by: usize)
    requires { (from ≤ to) × (to ≤ 1048576) × (by ≤ 8) }
    ensures { out.new ≡ over out.old (from + by) (bytes_at out.old from (to - from)) }
{
    let mut p = to;
    while from < p {
        p -= 1;
        let b = wire::byte_at(out, p);
        wire::put_byte(out, p + by, b);
    }
}

// Bytes came before the parts: `head` to the head, `size` in all.
fn raised_by(s: Building, head: usize, size: usize) -> Building
    requires { (head ≤ 8) × (size ≤ 8) × Ready s }
    ensures { result ≡ raised s head size }
{
    Building {
        brackets: s.brackets,
        depth: s.depth,
        fill: s.fill + size,
        start: s.start,
        body: s.body + head,
        tallest: s.tallest,
        last: s.last + size,
        height: s.height,
        late: s.late,
        before: 0,
        name: 0,
        word: false,
    }
}

// A name of the field being read: it comes before the parts.
pub fn add_name(out: &mut [u8], s: Building, name: u16) -> Building
    requires { Ready s }
    ensures { (frames : List ℕ) → Does (AName name) named_action s frames out.old (Some result) frames out.new }
{
    move_up(out, s.body, s.fill, 2);
    wire::put_two(out, s.body, name);
    raised_by(s, 2, 2)
}

// A parent (35) comes before the other parts.
pub fn parent_first(out: &mut [u8], s: Building, name: u16) -> Option<Building>
    requires { Ready s }
    ensures { (frames : List ℕ) → Does (AName name) parent_action s frames out.old result frames out.new }
{
    if 32 <= s.depth {
        return None;
    }
    move_up(out, s.body, s.fill, 5);
    wire::put_header(out, s.body, 0x35, 2);
    wire::put_two(out, s.body + 3, name);
    if s.tallest == 0 {
        return Some(with_part(s, 5, s.late));
    }
    Some(raised_by(s, 0, 5))
}

// The header of a field comes before the last part, with `by` bytes of room for it and its head.
fn lift(out: &mut [u8], frames: &mut [u8], s: Building, tag: u8, by: usize)
    requires { (by ≤ 8) × Ready s }
    ensures { (frames.new ≡ over frames.old (8 * s.depth) (high_bytes 8 (slot_number s.start s.body s.tallest))) × (out.new ≡ over (over out.old (s.last + by) (bytes_at out.old s.last (s.fill - s.last))) s.last (tag ∷ high_bytes 2 0)) }
{
    save(frames, s);
    move_up(out, s.last, s.fill, by);
    wire::put_header(out, s.last, tag, 0);
}

fn lifted(s: Building, by: usize) -> Building
    requires { (by ≤ 8) × Ready s }
    ensures { result ≡ opened_at s s.last (s.last + by) (s.fill + by) s.height s.late }
{
    let at = s.last;
    opened(s, at, at + by, s.fill + by, s.height, s.late)
}

// A field begins around the last part, which is its first one.
pub fn around(out: &mut [u8], frames: &mut [u8], s: Building, tag: u8) -> Option<Building>
    requires { (256 ≤ length frames.old) × Ready s }
    ensures { Does AnyToken (around_action tag []) s frames.old out.old result frames.new out.new }
{
    if s.tallest == 0 {
        return None;
    }
    if 32 <= s.depth + s.height {
        return None;
    }
    lift(out, frames, s, tag, 3);
    Some(lifted(s, 3))
}

// The same, with an operator in the head.
pub fn around_operator(
    out: &mut [u8],
    frames: &mut [u8],
    s: Building,
    tag: u8,
    operator: u8,
) -> Option<Building>
    requires { (256 ≤ length frames.old) × Ready s }
    ensures { Does AnyToken (around_action tag (byte operator ∷ [])) s frames.old out.old result frames.new out.new }
{
    if s.tallest == 0 {
        return None;
    }
    if 32 <= s.depth + s.height {
        return None;
    }
    lift(out, frames, s, tag, 4);
    wire::put_byte(out, s.last + 3, operator);
    Some(lifted(s, 4))
}

// The string constant just read is none: a field begins that has its name. It takes a byte less.
pub fn instead(out: &mut [u8], frames: &mut [u8], s: Building, tag: u8) -> Building
    requires { (s.word ≡ true) × (256 ≤ length frames.old) × Ready s }
    ensures { Does AnyToken (instead_action tag) s frames.old out.old (Some result) frames.new out.new }
{
    save(frames, s);
    let at = s.last;
    wire::put_header(out, at, tag, 0);
    wire::put_two(out, at + 3, s.name);
    opened(s, at, at + 5, at + 5, 0, s.before)
}
