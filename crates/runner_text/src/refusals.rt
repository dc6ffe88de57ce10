// The two refusals, as lines.
ghost use Rattle.std.specs.Prelude.{◌+◌, ◌≤◌, length};
ghost use Rattle.runner_text.specs.Text.{tables_refused};
ghost use Rattle.runner_text.specs.Output.{torn_text};
ghost use Rattle.runner_text.specs.Wrote.{Wrote, Adds};

use super::page::Page;

pub fn tables_refused(number: u8, place: usize, out: &mut [u8]) -> usize
    requires { 60 ≤ length out.old }
    ensures { Wrote 60 (tables_refused number place) out.old 0 result out.new }
{
    let mut page = Page { out, end: 0 };
    page.text(b"tables refused ");
    page.decimal(u64::from(number));
    page.text(b" at ");
    page.decimal(place as u64);
    page.text(b"\n");
    page.end
}

// What is told of a broken tail of so many bytes.
pub fn torn(tail: usize, page: &mut Page<'_>)
    requires { page.old.end + 18 ≤ length page.old.out.now }
    ensures { Adds 18 (torn_text tail) page.old page.new }
{
    if tail != 0 {
        page.text(b"events refused 27\n");
    }
}
