//! A host tree, changed by one operation after another.

use crate::told::expect;
use lx_host::{Attrs, HostTree, Inner, Name, Op, Tag};
use lx_node::{Key, NoMemory, Txt};
use std::alloc::Global;
use std::test::Fail;

/// Creates a host under this id, for the node whose key is that number.
fn create(alloc: Global, id: u32, tag: Tag, text: Option<Txt>) -> Op {
    Op::Create {
        id,
        key: Key(id),
        tag,
        attrs: Attrs::of(Vec::new(alloc)),
        text,
        ending: false,
    }
}

/// Places a child behind all others.
fn place(parent: u32, child: u32) -> Op {
    Op::Place {
        parent,
        child,
        before: None,
    }
}

/// The operation of a number.
fn operation(alloc: Global, number: u32) -> Result<Op, NoMemory> {
    match number {
        0 => Ok(create(alloc, 1, Tag::P, None)),
        1 => {
            let text = Txt::new(alloc, "Hi")?;
            Ok(create(alloc, 2, Tag::Inline(None, Inner::Span), Some(text)))
        }
        2 => Ok(place(1, 2)),
        3 => Ok(place(0, 1)),
        4 => {
            let text = Txt::new(alloc, "a < b")?;
            Ok(Op::Text { id: 2, text })
        }
        5 => {
            let value = Some(Txt::new(alloc, "rtl")?);
            let name = Name::Dir;
            Ok(Op::Attr { id: 1, name, value })
        }
        6 => Ok(Op::Break {
            id: 1,
            ending: true,
        }),
        _ => Ok(Op::Drop { id: 1 }),
    }
}

/// Applies the operation of a number if it fits.
fn step(alloc: Global, tree: &mut HostTree, number: u32) -> Result<(), NoMemory> {
    let op = operation(alloc, number)?;
    if tree.fits(&op) {
        let ops = vec![in alloc; op]?;
        tree.reserve(&ops)?;
        tree.apply(ops);
    }
    Ok(())
}

/// The tree is printed as a root that holds this.
pub(crate) fn expect_in_root(alloc: Global, tree: &HostTree, html: &str) -> Result<(), Fail> {
    let page = format!(in alloc; "<div>{html}</div>")?;
    let printed = tree.print_html()?;
    expect(printed.as_str(), &page)
}

/// Applies the operations of these numbers, one after another.
pub(crate) fn run(
    alloc: Global,
    tree: &mut HostTree,
    first: u32,
    end: u32,
) -> Result<(), NoMemory> {
    for number in first..end {
        step(alloc, tree, number)?;
    }
    Ok(())
}

#[test]
fn hosts_are_changed(rt: HostRuntime) -> Result<(), Fail> {
    let alloc = rt.alloc();
    let mut tree = HostTree::new(alloc)?;
    run(alloc, &mut tree, 0, 4)?;
    expect_in_root(alloc, &tree, "<p><span>Hi</span></p>")?;
    run(alloc, &mut tree, 4, 7)?;
    expect_in_root(
        alloc,
        &tree,
        r#"<p dir="rtl"><span>a &lt; b</span><br></p>"#,
    )?;
    run(alloc, &mut tree, 7, 8)?;
    expect_in_root(alloc, &tree, "")
}
