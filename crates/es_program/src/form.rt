use crate::module::Module;
use crate::script::Script;

/// A program as the one of the two goals that it was read by.
#[derive(Drop)]
pub enum Form {
    Module(Module),
    Script(Script),
}
