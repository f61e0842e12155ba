// The node item that runs for a device.
ghost use Rattle.std.specs.Prelude.{◌≡◌, ◌+◌, ◌≤◌, ◌<◌, length};
ghost use Rattle.rules.specs.Bytes.{fields_in};
ghost use Rattle.syntax.specs.Strings.{Indexed, found_of};
ghost use Rattle.syntax.specs.Nodes.{some_names, names_device, is_default_at, default_with, node_for};

use crate::strings::{same_bytes, string_at};
use wire::{byte_at, end_of, two_at};

// Whether one of the names from `from` to `e` is the device's.
fn some_names(m: &[u8], device: &[u8], table: &[u8], strings: u16, from: usize, e: usize) -> bool
    requires { (Indexed m.now table.now strings) × (e ≤ 4294967295) }
    ensures { result ≡ some_names m.now device.now (fields_in m.now from e) }
{
    for q in wire::fields_in(m, from, e) {
        if byte_at(m, q) != 0x31 {
            return false;
        }
        let name = two_at(m, q + 3);
        if same_bytes(string_at(m, table, strings, name), device) {
            return true;
        }
    }
    false
}

// Whether the item at `p` is a node that names the device.
fn names_device(m: &[u8], device: &[u8], table: &[u8], strings: u16, p: usize) -> bool
    requires { (Indexed m.now table.now strings) × (p ≤ 65535) }
    ensures { result ≡ names_device m.now device.now p }
{
    if byte_at(m, p) != 0x30 {
        return false;
    }
    some_names(m, device, table, strings, p + 3, end_of(m, p))
}

// Whether the item at `p` is a default node.
fn is_default(m: &[u8], p: usize) -> bool
    requires { p ≤ 65535 }
    ensures { result ≡ is_default_at m.now p }
{
    if byte_at(m, p) != 0x30 {
        return false;
    }
    byte_at(m, p + 3) == 0x1b
}

// The default node met before, or else the item at `p`, if it is one.
fn first_default(m: &[u8], p: usize, met: Option<u16>) -> Option<u16>
    requires { p ≤ 65535 }
    ensures { result ≡ default_with m.now met p }
{
    met.or(is_default(m, p).then_some(p as u16))
}

// The place of the node that runs for the device: the items are gone over once, for the first that names it and for the first default one.
pub fn node_place(m: &[u8], device: &[u8], table: &[u8], strings: u16) -> Option<u16>
    requires { (Indexed m.now table.now strings) × (length m.now ≤ 65535) }
    ensures { result ≡ found_of (node_for m.now device.now) }
{
    let mut default = None;
    for p in wire::fields_in(m, end_of(m, 0), m.len()) {
        if names_device(m, device, table, strings, p) {
            return Some(p as u16);
        }
        default = first_default(m, p, default);
    }
    default
}
