// The compiler, the text tools and the why tool for programs in C and Rust: the calls of the crate library under names of their own.
#![tactic(auto)]

ghost use Rattle.std.specs.Prelude.{length};
ghost use Rattle.notation.specs.Convert.{convert};
ghost use Rattle.notation.specs.Printer.{print};
ghost use Rattle.rules.specs.Types.{the_eight, lent};
ghost use Rattle.rules.specs.Why.{why};
ghost use Rattle.library.specs.Called.{Calls, Tells, Answers};

// The catalog of a device. Accepted: steps * 65,536 + the catalog's length; refused: number * 2^32 + place. The output then holds the catalog and zeros,
// or zeros throughout; the memory is zero.
#[unsafe(no_mangle)]
pub extern "C" fn rigbanut_compile(
    manifest: &[u8],
    device: &[u8],
    limit: u16,
    out: &mut [u8],
    work: &mut [u8],
) -> u64
    ensures { Calls the_eight manifest.now device.now limit out.old out.new work.old work.new result }
{
    library::rigbanut_compile(manifest, device, limit, out, work)
}

// The same with a list of types, which replaces the eight.
#[unsafe(no_mangle)]
pub extern "C" fn rigbanut_compile_with_types(
    types: &[u8],
    manifest: &[u8],
    device: &[u8],
    limit: u16,
    out: &mut [u8],
    work: &mut [u8],
) -> u64
    ensures { Calls (lent types.now) manifest.now device.now limit out.old out.new work.old work.new result }
{
    library::rigbanut_compile_with_types(types, manifest, device, limit, out, work)
}

// The manifest of a text.
#[unsafe(no_mangle)]
pub extern "C" fn rigbanut_convert(text: &[u8], out: &mut [u8], work: &mut [u8]) -> u64
    ensures { Tells (convert the_eight text.now (length out.old) (length work.old)) out.new work.new result }
{
    library::rigbanut_convert(text, out, work)
}

// The text of a manifest.
#[unsafe(no_mangle)]
pub extern "C" fn rigbanut_print(manifest: &[u8], out: &mut [u8], work: &mut [u8]) -> u64
    ensures { Tells (print the_eight manifest.now (length out.old) (length work.old)) out.new work.new result }
{
    library::rigbanut_print(manifest, out, work)
}

// The same two with a list of types, which replaces the eight.
#[unsafe(no_mangle)]
pub extern "C" fn rigbanut_convert_with_types(
    types: &[u8],
    text: &[u8],
    out: &mut [u8],
    work: &mut [u8],
) -> u64
    ensures { Tells (convert (lent types.now) text.now (length out.old) (length work.old)) out.new work.new result }
{
    library::rigbanut_convert_with_types(types, text, out, work)
}

#[unsafe(no_mangle)]
pub extern "C" fn rigbanut_print_with_types(
    types: &[u8],
    manifest: &[u8],
    out: &mut [u8],
    work: &mut [u8],
) -> u64
    ensures { Tells (print (lent types.now) manifest.now (length out.old) (length work.old)) out.new work.new result }
{
    library::rigbanut_print_with_types(types, manifest, out, work)
}

// Why a label counts for an attribute of the device's catalog: the part's number * 65,536 + the place, or 0 where the label is not among them; or as above
// number * 2^32 + place. The memory is zero after the call.
#[unsafe(no_mangle)]
pub extern "C" fn rigbanut_why(
    manifest: &[u8],
    device: &[u8],
    kind: &[u8],
    title: &[u8],
    attribute: &[u8],
    label: u8,
    work: &mut [u8],
) -> u64
    ensures { Answers (why the_eight manifest.now device.now kind.now title.now attribute.now label (length work.old)) work.new result }
{
    library::rigbanut_why(manifest, device, kind, title, attribute, label, work)
}

// The same with a list of types, which replaces the eight.
#[unsafe(no_mangle)]
pub extern "C" fn rigbanut_why_with_types(
    types: &[u8],
    manifest: &[u8],
    device: &[u8],
    kind: &[u8],
    title: &[u8],
    attribute: &[u8],
    label: u8,
    work: &mut [u8],
) -> u64
    ensures { Answers (why (lent types.now) manifest.now device.now kind.now title.now attribute.now label (length work.old)) work.new result }
{
    library::rigbanut_why_with_types(types, manifest, device, kind, title, attribute, label, work)
}
