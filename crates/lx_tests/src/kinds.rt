//! The table of kinds, as it is documented, beside the definition.

use lx_node::{Kind, ListType};
use std::alloc::Global;
use std::test::Fail;

/// Each kind with signs, `+` for yes: whether it is an element, an inline, and may be empty; then, for each
/// kind in this order, whether it holds it.
const TABLE: [(Kind, &str); 15] = [
    (Kind::Root, "+.+.++++..+.....+."),
    (Kind::Paragraph, "+.+......+...+++.+"),
    (Kind::Heading(1), "+.+......+...+++.+"),
    (Kind::Quote, "+.+.++.+.+...+++.+"),
    (Kind::List(ListType::Check), "+.......+........."),
    (Kind::Item, "+.+....+.+...+++.+"),
    (Kind::Link, "++...........+++.+"),
    (Kind::Table, "+..........+......"),
    (Kind::Row, "+.+.........+....."),
    (Kind::Cell, "+.+.++++..+.....+."),
    (Kind::Text, ".++..............."),
    (Kind::Tab, ".++..............."),
    (Kind::Break, ".++..............."),
    (Kind::Rule, "..+..............."),
    (Kind::Embed, ".++..............."),
];

fn sign(holds: bool) -> &'static str {
    if holds { "+" } else { "." }
}

/// All signs of a kind, as in the table.
fn signs(alloc: Global, kind: Kind) -> Result<String, Fail> {
    let (element, inline) = (sign(kind.is_element()), sign(kind.is_inline()));
    let mut signs = format!(in alloc; "{element}{inline}{}", sign(kind.may_be_empty()))?;
    for (child, _) in &TABLE {
        signs.push_str(sign(kind.may_hold(*child)))?;
    }
    Ok(signs)
}

#[test]
fn the_columns_are_those_of_the_table(rt: HostRuntime) -> Result<(), Fail> {
    for (kind, wanted) in &TABLE {
        let found = signs(rt.alloc(), *kind)?;
        assert_eq!(rt; found.as_str(), *wanted, "{}", kind.type_name());
    }
    Ok(())
}
