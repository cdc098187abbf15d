use fx_base::Text;

/// What the program is to do with the rule file.
#[derive(Clone, Copy, Debug, PartialEq, Eq)]
pub enum Mode {
    /// To run the script over it.
    Run,
    /// To say whether it is accepted.
    Check,
    /// To print how long the events of its types matter.
    Lives,
    /// To print certificates of that.
    Proof,
    /// To run the script over it, and to write the image of what the run comes to in place of its lines.
    Save,
}

/// What the words ask for. A limit is the most firings of a run, from 1 to 1,000,000.
#[derive(Debug, PartialEq, Drop)]
pub enum Asked {
    /// What the mode does with the rule file of this name. The modes `run` and `save` go on from the image of the file of this name, where
    /// one is given.
    RuleFile {
        name: Text,
        mode: Mode,
        limit: u64,
        image: Option<Text>,
    },
    /// The run over the load that is generated with this number, which is below 2^31.
    Load {
        number: u32,
        limit: u64,
    },
}
