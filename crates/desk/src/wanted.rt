//! What is wanted of a live run.
use checkpoint::Image;
use fx_base::{Seq, Text};
use replay::Beginning;
use rule_model::{LifeTable, Program};
use script_run::Form;

/// What the words and the rule files say of a live run: its program, the most firings of each fire command, the form of its answers, the name of
/// its image, where one is given, and the program of the rules that are to come, where they are given.
#[derive(Drop)]
pub(crate) struct Setting {
    pub(crate) program: Program,
    pub(crate) each: u64,
    pub(crate) form: Form,
    pub(crate) image: Option<Text>,
    pub(crate) later: Option<Program>,
}

/// A live run: where it begins, with the lives that its image says, if it says some.
#[derive(Drop)]
pub(crate) struct Begun {
    pub(crate) setting: Setting,
    pub(crate) beginning: Beginning,
    pub(crate) lives: Option<LifeTable>,
}

/// A live run behind an image of other rules: the text of its rules, the program of the old ones, and the lives that the image says, if it says
/// some.
#[derive(Drop)]
pub(crate) struct Changing {
    pub(crate) setting: Setting,
    pub(crate) rules: Seq<u8>,
    pub(crate) old: Program,
    pub(crate) lives: Option<LifeTable>,
    pub(crate) image: Image,
}
