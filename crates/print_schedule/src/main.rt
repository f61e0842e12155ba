// The schedule printer: reads a device name, a line feed and a manifest from standard input, and prints the device's schedule. Limit, output
// and memory are those of document 01's schedule: 65,535 steps, 65,535 bytes and 65,536 bytes.
#![tactic(auto)]

ghost use Rattle.std.specs.Prelude.{◌≡◌, List, ℕ, ◌+◌, length, OnOk};
ghost use Rattle.values.specs.Numbers.{number_of};
ghost use Rattle.rules.specs.Types.{the_eight};
ghost use Rattle.rules.specs.Compile.{compile};
ghost use Rattle.rules.specs.Schedule.{steps_line, refusal_line, schedule};
ghost use Rattle.input.specs.Reading.{reading, reading_of};
ghost use Rattle.schedule.specs.Strings.{strings_by};
ghost use Rattle.schedule.specs.Subjects.{start};
ghost use Rattle.standard_streams.specs.Sending.{ComesNext, Left, LastLine};
ghost use Rattle.print_schedule.specs.Printing.{schedule_text, AllSent, LinesLeft, IsCatalog};

use input::Progress;
use schedule::Position;
use standard_streams::{NotSent, first, read_all, send};
use values::{Answer, Refusal};

// ---- Compiling

// "with limit 65,535", 65,535 bytes of output and 65,536 of memory.
fn compile_schedule(manifest: &[u8], device: &[u8], out: &mut [u8; 65535]) -> Answer
    ensures { (result ≡ (compile the_eight manifest.now device.now 65535 65535 65536).answer) × (out.new ≡ (compile the_eight manifest.now device.now 65535 65535 65536).output_after) }
{
    let mut work = [0u8; 65536];
    compiler::compile(manifest, device, 65535, out, &mut work)
}

// ---- Printing: `sent` bytes of the schedule of `manifest` and `device` are written out. Nothing but `write` changes `sent`, or writes to standard output.

// Writes out what comes next, or tells on standard error that it cannot.
fn write(
    rt: &(impl Print + Eprint),
    text: &[u8],
    manifest: &[u8],
    device: &[u8],
    sent: &mut u64,
) -> Result<(), NotSent>
    requires { ComesNext (schedule_text manifest.now device.now) sent.old text.now }
    ensures { OnOk result (sent.new ≡ sent.old + length text.now) }
{
    send(rt, text, sent)
}

// The last line, in its buffer.
fn print_last(
    rt: &(impl Print + Eprint),
    written: Option<usize>,
    line: &[u8],
    manifest: &[u8],
    device: &[u8],
    sent: &mut u64,
) -> Result<(), NotSent>
    requires { LastLine (schedule_text manifest.now device.now) sent.old written line.now }
    ensures { AllSent manifest.now device.now sent.new result }
{
    write(rt, first(line, written.unwrap()), manifest, device, sent)
}

fn print_steps(
    rt: &(impl Print + Eprint),
    steps: u16,
    manifest: &[u8],
    device: &[u8],
    sent: &mut u64,
) -> Result<(), NotSent>
    requires { Left (schedule_text manifest.now device.now) sent.old (steps_line steps) }
    ensures { AllSent manifest.now device.now sent.new result }
{
    let mut line = [0u8; 2048];
    let written = schedule::steps_line(steps, &mut line);
    print_last(rt, written, &line, manifest, device, sent)
}

// The lines of a catalog, and the last one.
fn print_lines(
    rt: &(impl Print + Eprint),
    catalog: &[u8],
    steps: u16,
    manifest: &[u8],
    device: &[u8],
    index: &[u8],
    strings: u16,
    sent: &mut u64,
) -> Result<(), NotSent>
    requires { LinesLeft (schedule_text manifest.now device.now) sent.old (strings_by manifest.now index.now strings) catalog.now start (steps_line steps) }
    ensures { AllSent manifest.now device.now sent.new result }
{
    let mut line = [0u8; 2048];
    let mut at = Position::START;
    while let Ok(Some(text)) = schedule::next_line(
        catalog, at, manifest, index, strings, &mut line,
    ) {
        write(rt, first(&line, text.length), manifest, device, sent)?;
        at = text.next;
    }
    print_steps(rt, steps, manifest, device, sent)
}

fn print_catalog(
    rt: &(impl Print + Eprint),
    catalog: &[u8],
    steps: u16,
    manifest: &[u8],
    device: &[u8],
    sent: &mut u64,
) -> Result<(), NotSent>
    requires { IsCatalog manifest.now device.now catalog.now steps × (sent.old ≡ 0) }
    ensures { AllSent manifest.now device.now sent.new result }
{
    let mut index = [0u8; 2048];
    let strings = syntax::strings::index_strings(manifest, &mut index);
    print_lines(rt, catalog, steps, manifest, device, &index, strings, sent)
}

fn print_refusal(
    rt: &(impl Print + Eprint),
    refusal: Refusal,
    manifest: &[u8],
    device: &[u8],
    sent: &mut u64,
) -> Result<(), NotSent>
    requires { Left (schedule_text manifest.now device.now) sent.old (refusal_line (number_of refusal.reason) refusal.place) }
    ensures { AllSent manifest.now device.now sent.new result }
{
    let mut line = [0u8; 2048];
    let written = schedule::refusal_line(refusal.reason, refusal.place, &mut line);
    print_last(rt, written, &line, manifest, device, sent)
}

// Prints the schedule: `Ok` if all of it is written.
fn print_schedule(
    rt: &(impl Print + Eprint),
    manifest: &[u8],
    device: &[u8],
    sent: &mut u64,
) -> Result<(), NotSent>
    requires { sent.old ≡ 0 }
    ensures { AllSent manifest.now device.now sent.new result }
{
    let mut out = [0u8; 65535];
    let answer = compile_schedule(manifest, device, &mut out);
    match answer {
        Ok(made) => print_catalog(
            rt,
            first(&out, made.length as usize),
            made.steps,
            manifest,
            device,
            sent,
        ),
        Err(refusal) => print_refusal(rt, refusal, manifest, device, sent),
    }
}

// Prints the schedule of the input that the buffers hold.
fn print_read(
    rt: &(impl Print + Eprint),
    at: Progress,
    device: &[u8],
    manifest: &[u8],
    sent: &mut u64,
) -> Result<(), NotSent>
    requires { sent.old ≡ 0 }
    ensures { (d m input : List ℕ) → length d ≡ 256 → length m ≡ 65536 → reading at device.now manifest.now ≡ reading_of d m input → OnOk result (sent.new ≡ length (schedule input)) }
{
    print_schedule(rt, first(manifest, at.rest), first(device, at.line), sent)
}

fn main(rt: HostRuntime) {
    let mut device = [0u8; 256];
    let mut manifest = [0u8; 65536];
    let Ok(at) = read_all(&rt, &mut device, &mut manifest) else {
        return;
    };
    let mut sent: u64 = 0;
    let _ = print_read(&rt, at, &device, &manifest, &mut sent);
}
