//! What a transaction reads at the keys from one to another, together.
ghost use Rattle.std.specs.Prelude.{◌≡◌, ◌%◌, ◌^◌, ◌≤◌};
ghost use Rattle.zy_isa.specs.Rows.{Rising};
ghost use Rattle.zy_table.specs.Pages.{rows_of};
ghost use Rattle.zy_table.specs.Ranges.{range, total};
ghost use Rattle.zy_table.specs.Run.{value_for};
ghost use Rattle.zy_node.specs.Nodes.{node_shown};
ghost use Rattle.zy_node.specs.Sums.{value_beside};

use zy_isa::Row;
use zy_node::NodeStore;
use zy_node::range::next_page;
use zy_node::sums::sum_of_rows;
use zy_node::wireframe::page_of;
use zy_txns::Txn;

/// What a transaction reads at the keys from one to another, together, modulo 2^32: its private rows, and page by page
/// the committed ones at keys of which it has none.
pub(crate) fn sum(me: &NodeStore, txn: &Txn, first: u16, last: u16) -> u32
    requires { first ≤ last }
    ensures { result ≡ total (value_for txn.now (node_shown me.now)) (range first last) % 2 ^ 32 }
{
    let private = txn.rows();
    let mut sum = sum_of_rows(private, &[], first, last);
    let mut low = first;
    let mut page = page_of(&me.wire, first);
    while let Some(next) = next_page(&me.wire, low, last) {
        sum = sum.wrapping_add(sum_of_page(me, page, private, low, next.low - 1));
        low = next.low;
        page = next.page;
    }
    sum.wrapping_add(sum_of_page(me, page, private, low, last))
}

/// What a page has at the keys from one to another, together, modulo 2^32, but for keys that others have.
fn sum_of_page(me: &NodeStore, p: u16, others: &[Row], first: u16, last: u16) -> u32
    requires { Rising 0 others.now }
    ensures { result ≡ total (value_beside others.now (rows_of me.now.pages p)) (range first last) % 2 ^ 32 }
{
    match me.pages.get(p) {
        Some(page) => sum_of_rows(page.rows(), others, first, last),
        None => 0,
    }
}
