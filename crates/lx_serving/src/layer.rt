use crate::outlined::Outlined;
use crate::setup::Beside;
use lx_hub::Hub;
use lx_node::NoMemory;
use std::alloc::Global;

/// What is beside the editor.
#[derive(Drop)]
pub(crate) enum Layer {
    /// Nothing.
    Plain,
    /// Views that lag.
    Hub(Hub),
    /// An outline that is kept by events.
    Outline(Outlined),
    /// Nothing any more: memory ran out for a line beside a hub or an outline, which may lack a commit. No line is
    /// answered after it.
    Gone,
}

impl Layer {
    ghost use Rattle.std.specs.Prelude.{◌≡◌, ℕ, Bool, IfOk, OnOk};
    ghost use Rattle.lx_editor.specs.Editor.{new_editor};
    ghost use Rattle.lx_serving.specs.Served.{IsBeside, new_layer};
    ghost use Rattle.lx_serving.specs.declared.layer.Layer.TheVariants as layer;

    /// What is beside a new editor.
    pub(crate) fn new(alloc: Global, beside: Beside) -> Result<Layer, NoMemory>
        ensures made { IfOk result (λ made. made ≡ new_layer beside) }
        ensures beside { OnOk result ((view : Bool) (delay : ℕ) → IsBeside (new_editor view delay) (new_layer beside)) }
    {
        match beside {
            Beside::Nothing => Ok(Layer::Plain),
            Beside::Hub => Ok(Layer::Hub(Hub::new(alloc)?)),
            Beside::Outline => Ok(Layer::Outline(Outlined::new(alloc)?)),
        }
    }

    /// Lets go of what is there.
    pub(crate) fn let_go(&mut self)
        ensures { self.new ≡ layer.Gone }
    {
        *self = Layer::Gone;
    }
}
