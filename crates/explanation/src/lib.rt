// Why does this line count? One run of the manifest notes the part of an attribute's set that has a label; runs with constants struck out, by halves, find the lowest
// place of a constant with the label that the compile came to.
#![tactic(auto)]

ghost use Rattle.std.specs.Prelude.{◌≡◌, true, false, [], ◌≤◌, length};
ghost use Rattle.wire.specs.Runs.{zeros};
ghost use Rattle.rules.specs.Read.{manifest_of};
ghost use Rattle.rules.specs.Types.{the_eight, lent, check_types};
ghost use Rattle.rules.specs.Compile.{none_struck_out, run_manifest};
ghost use Rattle.rules.specs.Why.{comes_to_one, lowest_place, without_limits, why};
ghost use Rattle.syntax.specs.Before.{before};
ghost use Rattle.syntax.specs.Strings.{string_texts};
ghost use Rattle.type_list.specs.Listed.{chosen};
ghost use Rattle.provenance.specs.Notes.{nothing_asked, Noted};
ghost use Rattle.definitions.specs.Prepared.{Prepares};
ghost use Rattle.explanation.specs.Questions.{numbers_of, Small, question_for};
ghost use Rattle.rules.proofs.Strikes.{labelled_below};
ghost use Rattle.explanation.specs.Explained.{Checked, AskEnds, part_noted, Answers, Explains};
ghost use Rattle.values.specs.Answers.{refused_for};
ghost use Rattle.rules.specs.Verdicts.{no_fault};

use syntax::strings::string_number;
use values::{Among, Explanation, Reason, Refusal, SetPart};

// How many bytes a compile given no limits may write.
const ROOM: usize = 65535;

// The numbers of the strings that a question names.
#[derive(Clone, Copy)]
pub struct Numbers {
    pub kind: u16,
    pub title: u16,
    pub name: u16,
}

// ---- The question

// These numbers, if the table has all three strings.
fn numbers_of(m: &[u8], kind: &[u8], title: &[u8], attribute: &[u8]) -> Option<Numbers>
    ensures { result ≡ numbers_of (string_texts m.now) kind.now title.now attribute.now }
{
    let kind_number = string_number(m, kind)?;
    let title_number = string_number(m, title)?;
    let name = string_number(m, attribute)?;
    Some(Numbers {
        kind: kind_number,
        title: title_number,
        name,
    })
}

// The memory before a run that notes the part of the attribute asked about.
fn prepare_asking(types: &[u8], m: &[u8], numbers: Option<Numbers>, label: u8, work: &mut [u8])
    requires { (Checked types.now m.now × (65536 ≤ length work.old)) × Small numbers }
    ensures { Prepares (chosen types.now) m.now work.new none_struck_out × Noted work.new (question_for numbers label) [] }
{
    definitions::prepare(types, m, work);
    let Some(asked) = numbers else {
        return;
    };
    memory::set_word(work, memory::ASKED_TYPE, asked.kind + 1);
    memory::set_word(work, memory::ASKED_TITLE, asked.title);
    memory::set_word(work, memory::ASKED_NAME, asked.name);
    memory::set_word(work, memory::ASKED_LABEL, label as u16);
}

fn run_asking(
    types: &[u8],
    m: &[u8],
    device: &[u8],
    numbers: Option<Numbers>,
    label: u8,
    out: &mut [u8],
    work: &mut [u8],
) -> Result<usize, Refusal>
    requires { (Checked types.now m.now × ((65536 ≤ length work.old) × (length out.old ≡ 65535))) × Small numbers }
    ensures { AskEnds work.new (question_for numbers label) (run_manifest none_struck_out (chosen types.now) (manifest_of m.now) device.now without_limits without_limits) result }
{
    prepare_asking(types, m, numbers, label, work);
    let mut left: u16 = 65535;
    compiler::run_prepared(m, device, out, work, &mut left)
}

// ---- The place

// The memory before a run in which the constants with this label, before the place `end`, are struck out.
fn prepare_struck(types: &[u8], m: &[u8], label: u8, end: u16, work: &mut [u8])
    requires { Checked types.now m.now × (65536 ≤ length work.old) }
    ensures { Prepares (chosen types.now) m.now work.new (labelled_below label end) × Noted work.new nothing_asked [] }
{
    definitions::prepare(types, m, work);
    memory::set_word(work, memory::STRIKE_LABEL, label as u16);
    memory::set_word(work, memory::STRIKE_END, end);
}

// Whether the compile comes to a constant with this label before the place `end`: whether it is refused with these struck out.
fn comes_below(
    types: &[u8],
    m: &[u8],
    device: &[u8],
    label: u8,
    end: u16,
    out: &mut [u8],
    work: &mut [u8],
) -> bool
    requires { Checked types.now m.now × ((65536 ≤ length work.old) × (length out.old ≡ 65535)) }
    ensures { result ≡ comes_to_one (chosen types.now) m.now device.now (labelled_below label end) }
{
    prepare_struck(types, m, label, end, work);
    let mut left: u16 = 65535;
    let r = compiler::run_prepared(m, device, out, work, &mut left);
    r.is_err()
}

// By halves: the compile comes to none of these constants before `low`, and to one before `high`.
fn lowest_place(
    types: &[u8],
    m: &[u8],
    device: &[u8],
    label: u8,
    out: &mut [u8],
    work: &mut [u8],
) -> u16
    requires { Checked types.now m.now × ((65536 ≤ length work.old) × (length out.old ≡ 65535)) }
    ensures { comes_to_one (chosen types.now) m.now device.now (labelled_below label 0) ≡ false → comes_to_one (chosen types.now) m.now device.now (labelled_below label (length m.now)) ≡ true → result ≡ lowest_place (chosen types.now) m.now device.now label }
{
    let mut low: u16 = 0;
    let mut high = m.len() as u16;
    while low as usize + 1 < high as usize {
        let middle = low + (high - low) / 2;
        if comes_below(types, m, device, label, middle, out, work) {
            high = middle;
        } else {
            low = middle;
        }
    }
    low
}

// ---- The answer

// A refusal before the run: the memory is cleared.
fn refuse(refusal: Refusal, work: &mut [u8]) -> Explanation
    ensures { (result ≡ refused_for refusal.reason refusal.place) × (work.new ≡ zeros (length work.old)) }
{
    memory::clear(work);
    Err(refusal)
}

// The part with a number that was noted.
fn part_of(note: u16) -> SetPart
    ensures { result ≡ part_noted note }
{
    match note {
        1 => SetPart::Title,
        2 => SetPart::Path,
        3 => SetPart::Trail,
        4 => SetPart::Marks,
        _ => SetPart::Value,
    }
}

// What a note says after a run that is accepted.
fn answer_noted(
    types: &[u8],
    m: &[u8],
    device: &[u8],
    label: u8,
    out: &mut [u8],
    work: &mut [u8],
) -> Explanation
    requires { Checked types.now m.now × ((65536 ≤ length work.old) × (length out.old ≡ 65535)) }
    ensures { Answers (chosen types.now) m.now device.now label work.old result }
{
    let note = memory::word(work, memory::NOTE);
    if note == provenance::NO_ATTRIBUTE as u16 {
        return Err(Refusal::at(Reason::NoSuchAttribute, 0));
    }
    if note == provenance::NO_PART as u16 {
        return Ok(None);
    }
    let part = part_of(note);
    let place = lowest_place(types, m, device, label, out, work);
    Ok(Some(Among { part, place }))
}

// A sound manifest.
fn explain_sound(
    types: &[u8],
    m: &[u8],
    device: &[u8],
    kind: &[u8],
    title: &[u8],
    attribute: &[u8],
    label: u8,
    work: &mut [u8],
) -> Explanation
    requires { (65536 ≤ length work.old) × ((check_types (chosen types.now) ≡ no_fault) × (before m.now ≡ no_fault)) }
    ensures { result ≡ (why (chosen types.now) m.now device.now kind.now title.now attribute.now label (length work.old)).answer }
{
    let mut out = [0u8; ROOM];
    let numbers = numbers_of(m, kind, title, attribute);
    run_asking(types, m, device, numbers, label, &mut out, work)?;
    answer_noted(types, m, device, label, &mut out, work)
}

// Memory that is long enough, and types without fault: an empty list means the eight.
fn explain_chosen(
    types: &[u8],
    manifest: &[u8],
    device: &[u8],
    kind: &[u8],
    title: &[u8],
    attribute: &[u8],
    label: u8,
    work: &mut [u8],
) -> Explanation
    requires { (65536 ≤ length work.old) × (check_types (chosen types.now) ≡ no_fault) }
    ensures { Explains (chosen types.now) manifest.now device.now kind.now title.now attribute.now label work.old work.new result }
{
    match syntax::check_all(manifest) {
        Err(fault) => refuse(Refusal::at(fault.reason, fault.place), work),
        Ok(()) => {
            let explanation = explain_sound(
                types, manifest, device, kind, title, attribute, label, work,
            );
            memory::clear(work);
            explanation
        }
    }
}

// Why a label counts for an attribute of a device's catalog: the first part of the attribute's set that has it, and the lowest place of a constant with it that the
// compile came to; that it is not among them; or a refusal, of the compile or 27. The memory is zero after every call.
pub fn explain(
    manifest: &[u8],
    device: &[u8],
    kind: &[u8],
    title: &[u8],
    attribute: &[u8],
    label: u8,
    work: &mut [u8],
) -> Explanation
    ensures { Explains the_eight manifest.now device.now kind.now title.now attribute.now label work.old work.new result }
{
    if work.len() < 65536 {
        return refuse(Refusal::at(Reason::MemoryTooShort, 0), work);
    }
    explain_chosen(b"", manifest, device, kind, title, attribute, label, work)
}

// The same with a list of types, which replaces the eight.
pub fn explain_with_types(
    types: &[u8],
    manifest: &[u8],
    device: &[u8],
    kind: &[u8],
    title: &[u8],
    attribute: &[u8],
    label: u8,
    work: &mut [u8],
) -> Explanation
    ensures { Explains (lent types.now) manifest.now device.now kind.now title.now attribute.now label work.old work.new result }
{
    if work.len() < 65536 {
        return refuse(Refusal::at(Reason::MemoryTooShort, 0), work);
    }
    match type_list::check_types(types) {
        Err(fault) => refuse(Refusal::at(fault.reason, fault.place), work),
        Ok(()) => { explain_chosen(types, manifest, device, kind, title, attribute, label, work) }
    }
}
