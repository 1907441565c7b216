//! Whether two parts of a state are the same.
ghost use Rattle.std.specs.Prelude.{◌≡◌, true};
ghost use Rattle.zy_node.specs.Slots.{laid_out};

use zy_page::Page;

/// Whether two pages are the same. Where it answers yes they are.
pub fn same_page(x: &Page, y: &Page) -> bool
    ensures { result ≡ true → x.now ≡ y.now }
{
    if x.number() != y.number() {
        return false;
    }
    if x.low() != y.low() {
        return false;
    }
    x.rows() == y.rows()
}

/// Whether two slots have the same page, or are both empty.
fn same_slot(x: &Option<Page>, y: &Option<Page>) -> bool
    ensures { result ≡ true → x.now ≡ y.now }
{
    match (x, y) {
        (Some(x), Some(y)) => same_page(x, y),
        (None, None) => true,
        _ => false,
    }
}

/// Whether the slots have the same pages; empty slots behind the others make no difference.
pub(crate) fn same_slots(xs: &[Option<Page>], ys: &[Option<Page>]) -> bool
    ensures { result ≡ true → laid_out xs.now ≡ laid_out ys.now }
{
    match (xs, ys) {
        ([], []) => true,
        ([x, xs @ ..], []) => x.is_none() && same_slots(xs, ys),
        ([], [y, ys @ ..]) => y.is_none() && same_slots(xs, ys),
        ([x, xs @ ..], [y, ys @ ..]) => same_slot(x, y) && same_slots(xs, ys),
    }
}
