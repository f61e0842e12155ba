// The compiler, the text tools and the why tool, a call each, whose answer is one word. The crate library_c hands them on to programs in C and Rust.
#![tactic(auto)]

ghost use Rattle.std.specs.Prelude.{◌≡◌, ◌+◌, ◌*◌, length};
ghost use Rattle.values.specs.Numbers.{number_of, said};
ghost use Rattle.notation.specs.Convert.{convert, said as said_of_text};
ghost use Rattle.notation.specs.Printer.{print};
ghost use Rattle.rules.specs.Types.{the_eight, lent};
ghost use Rattle.rules.specs.Why.{why};
ghost use Rattle.library.specs.Called.{word_of, Calls, text_word, Tells, explanation_word, Answers};

use values::{Answer, Explanation, Refusal};

// A refusal in one word.
fn refusal_word(refusal: Refusal) -> u64
    ensures { result ≡ number_of refusal.reason * 4294967296 + refusal.place }
{
    values::number_of(refusal.reason) as u64 * 4294967296 + refusal.place as u64
}

// ---- The compiler

// An answer in one word.
#[tactic(auto, unfolding(crate::specs::Called::word_of, values::specs::Numbers::said))]
fn word_of(answer: Answer) -> u64
    ensures { result ≡ word_of (said answer) }
{
    match answer {
        Ok(made) => made.steps as u64 * 65536 + made.length as u64,
        Err(refusal) => refusal_word(refusal),
    }
}

// The catalog of a device. Accepted: steps * 65,536 + the catalog's length; refused: number * 2^32 + place. The output then holds the catalog and zeros,
// or zeros throughout; the memory is zero.
pub fn rigbanut_compile(
    manifest: &[u8],
    device: &[u8],
    limit: u16,
    out: &mut [u8],
    work: &mut [u8],
) -> u64
    ensures { Calls the_eight manifest.now device.now limit out.old out.new work.old work.new result }
{
    let answer = compiler::compile(manifest, device, limit, out, work);
    word_of(answer)
}

// The same with a list of types, which replaces the eight.
pub fn rigbanut_compile_with_types(
    types: &[u8],
    manifest: &[u8],
    device: &[u8],
    limit: u16,
    out: &mut [u8],
    work: &mut [u8],
) -> u64
    ensures { Calls (lent types.now) manifest.now device.now limit out.old out.new work.old work.new result }
{
    let answer = compiler::compile_with_types(types, manifest, device, limit, out, work);
    word_of(answer)
}

// ---- The text tools: what they answer is the length written, or as above number * 2^32 + place; and so are output and memory

#[tactic(auto, unfolding(crate::specs::Called::text_word, notation::specs::Convert::said))]
fn text_word(answer: notation::Answer) -> u64
    ensures { result ≡ text_word (said_of_text answer) }
{
    answer.map_or_else(refusal_word, u64::from)
}

// The manifest of a text.
pub fn rigbanut_convert(text: &[u8], out: &mut [u8], work: &mut [u8]) -> u64
    ensures { Tells (convert the_eight text.now (length out.old) (length work.old)) out.new work.new result }
{
    let answer = converter::convert(text, out, work);
    text_word(answer)
}

// The text of a manifest.
pub fn rigbanut_print(manifest: &[u8], out: &mut [u8], work: &mut [u8]) -> u64
    ensures { Tells (print the_eight manifest.now (length out.old) (length work.old)) out.new work.new result }
{
    let answer = printer::print(manifest, out, work);
    text_word(answer)
}

// The same two with a list of types, which replaces the eight.
pub fn rigbanut_convert_with_types(
    types: &[u8],
    text: &[u8],
    out: &mut [u8],
    work: &mut [u8],
) -> u64
    ensures { Tells (convert (lent types.now) text.now (length out.old) (length work.old)) out.new work.new result }
{
    let answer = converter::convert_with_types(types, text, out, work);
    text_word(answer)
}

pub fn rigbanut_print_with_types(
    types: &[u8],
    manifest: &[u8],
    out: &mut [u8],
    work: &mut [u8],
) -> u64
    ensures { Tells (print (lent types.now) manifest.now (length out.old) (length work.old)) out.new work.new result }
{
    let answer = printer::print_with_types(types, manifest, out, work);
    text_word(answer)
}

// ---- The why tool

// An explanation in one word.
#[tactic(auto, unfolding(crate::specs::Called::explanation_word))]
fn explanation_word(explanation: Explanation) -> u64
    ensures { result ≡ explanation_word explanation }
{
    match explanation {
        Ok(Some(among)) => values::part_number(among.part) as u64 * 65536 + among.place as u64,
        Ok(None) => 0,
        Err(refusal) => refusal_word(refusal),
    }
}

// Why a label counts for an attribute of the device's catalog: the part's number * 65,536 + the place, or 0 where the label is not among them; or as above
// number * 2^32 + place. The memory is zero after the call.
pub fn rigbanut_why(
    manifest: &[u8],
    device: &[u8],
    kind: &[u8],
    title: &[u8],
    attribute: &[u8],
    label: u8,
    work: &mut [u8],
) -> u64
    ensures { Answers (why the_eight manifest.now device.now kind.now title.now attribute.now label (length work.old)) work.new result }
{
    let explanation = explanation::explain(manifest, device, kind, title, attribute, label, work);
    explanation_word(explanation)
}

// The same with a list of types, which replaces the eight.
pub fn rigbanut_why_with_types(
    types: &[u8],
    manifest: &[u8],
    device: &[u8],
    kind: &[u8],
    title: &[u8],
    attribute: &[u8],
    label: u8,
    work: &mut [u8],
) -> u64
    ensures { Answers (why (lent types.now) manifest.now device.now kind.now title.now attribute.now label (length work.old)) work.new result }
{
    let explanation = explanation::explain_with_types(
        types, manifest, device, kind, title, attribute, label, work,
    );
    explanation_word(explanation)
}
