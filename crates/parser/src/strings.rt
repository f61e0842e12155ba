// The strings of a token, entered in the table.
ghost use Rattle.std.specs.Prelude.{◌<◌};
ghost use Rattle.notation.specs.Quoted.{string_from};
ghost use Rattle.parser.specs.Entering.{Enterable, EnteredOne, EnteredBoth};

use interner::enter;

// How many strings the table has, and the numbers of a token's strings in it.
#[derive(Clone, Copy)]
pub struct Numbered {
    pub count: usize,
    pub class: u16,
    pub name: u16,
}

// The string that begins at `at`.
pub fn enter_one(text: &[u8], table: &mut [u8], count: usize, at: usize) -> Numbered
    requires { Enterable text.now table.old count × (at < 65536) }
    ensures { EnteredOne text.now table.old count (string_from text.now at) table.new result }
{
    let one = enter(text, table, count, at);
    let number = one.number;
    Numbered {
        count: one.count,
        class: 0,
        name: number as u16,
    }
}

// A class and a name. The class is looked up again, since the name may come before it.
pub fn enter_both(
    text: &[u8],
    table: &mut [u8],
    count: usize,
    outer: usize,
    inner: usize,
) -> Numbered
    requires { Enterable text.now table.old count × ((outer < 65536) × (inner < 65536)) }
    ensures { EnteredBoth text.now table.old count (string_from text.now outer) (string_from text.now inner) table.new result }
{
    let first = enter(text, table, count, outer);
    if 1024 < first.count {
        return Numbered {
            count: first.count,
            class: 0,
            name: 0,
        };
    }
    let second = enter(text, table, first.count, inner);
    if 1024 < second.count {
        return Numbered {
            count: second.count,
            class: 0,
            name: 0,
        };
    }
    let class = enter(text, table, second.count, outer);
    let number = class.number;
    let name = second.number;
    Numbered {
        count: class.count,
        class: number as u16,
        name: name as u16,
    }
}
