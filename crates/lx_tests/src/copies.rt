//! Copies that no line asks for: of a host tree, and of a listener.

use crate::hosts::{expect_in_root, run};
use lx_host::HostTree;
use lx_node::NoMemory;
use lx_script::read_line;
use lx_step::Form;
use lx_value::Room;
use std::alloc::Global;
use std::test::Fail;

/// The copy of a tree, which then is given another text and dropped.
fn copied_tree(alloc: Global) -> Result<HostTree, NoMemory> {
    let mut tree = HostTree::new(alloc)?;
    run(alloc, &mut tree, 0, 4)?;
    let copy = tree.copy()?;
    run(alloc, &mut tree, 4, 5)?;
    Ok(copy)
}

/// A listener with each condition, each form of a reference and a selection, and steps in steps.
const LISTENER: &str = r#"{"listener":{"on":"k","priority":3,"handled":true,
    "when":{"payload":"p","selection":"range","block":"paragraph"},
    "steps":[{"new":"link","fields":{"url":"u","rel":"r"},"as":"t"},{"put":"t","into":"@block","at":1},
        {"replace":"@focus","with":"t","keep":true},{"set":1,"fields":{"format":3,"text":"x"}},
        {"select":{"keys":[1,"t"]}},{"select":{"anchor":["t",0,"text"],"focus":[1,1,"element"]}},
        {"select":{"anchor":"t","focus":2,"table":1}},{"dispatch":"n","payload":[1,2,true]},
        {"later":[{"split":1,"at":[1,2],"as":"s"},{"later":[{"mark":1}]}]}]}}"#;

/// How many steps the copy of the listener has.
fn copied_steps(alloc: Global) -> Result<usize, Fail> {
    let mut room = Room::new(alloc)?;
    let line = read_line(alloc, LISTENER.as_bytes(), &mut room)?;
    let Form::Listener(listener) = &line.form else {
        return Err(Fail::new("it is read as no listener"));
    };
    let copy = listener.copy(alloc)?;
    Ok(copy.steps.items().len())
}

#[test]
fn copies_are_made(rt: HostRuntime) -> Result<(), Fail> {
    let tree = copied_tree(rt.alloc())?;
    expect_in_root(rt.alloc(), &tree, "<p><span>Hi</span></p>")?;
    let steps = copied_steps(rt.alloc())?;
    assert_eq!(rt; steps, 9);
    Ok(())
}
