use drl_expr::LitTree;
use drl_lex::Rel;
use fx_base::{Seq, Text};
use temporal_ops::OpWord;

/// A condition of a rule.
#[derive(Debug, Drop)]
pub enum CondTree {
    /// A fact of the pattern is there.
    Plain(SourceTree),
    /// `not`: no fact of the pattern is there.
    Negated(SourceTree),
    /// `exists`: some fact of the pattern is there.
    Existing(SourceTree),
    /// `accumulate`: a function over the facts of the pattern, the variable that its result is bound to, and tests of the
    /// result.
    Folded {
        result: Option<Text>,
        source: SourceTree,
        kind: FoldWord,
        arg: Text,
        tests: Seq<(Rel, Operand)>,
    },
}

/// A pattern: the variable of its fact, the type, the parts in parentheses, the window and the entry point.
#[derive(Debug, Drop)]
pub struct SourceTree {
    pub var: Option<Text>,
    pub ty: Text,
    pub parts: Seq<Part>,
    pub window: Option<WindowTree>,
    pub entry: Option<Text>,
}

/// A window over the events of a pattern.
#[derive(Clone, Copy, Debug, PartialEq, Eq)]
pub enum WindowTree {
    /// In milliseconds.
    Time(i64),
    /// A number of events.
    Length(i64),
}

/// What stands between two commas of a pattern.
#[derive(Debug, Drop)]
pub enum Part {
    /// A variable that is bound to a field.
    Bind {
        var: Text,
        field: Text,
    },
    /// A temporal test: the operator, its parameters in milliseconds, and the variable of the other event.
    Temporal {
        op: OpWord,
        params: Seq<i64>,
        other: Text,
    },
    /// One of these groups holds, each with all its comparisons.
    AnyOf(Seq<Seq<Cmp>>),
}

/// A comparison of a field.
#[derive(Debug, Drop)]
pub enum Cmp {
    Rel {
        field: Text,
        rel: Rel,
        operand: Operand,
    },
    /// `in`: the field is equal to one of the operands.
    OneOf {
        field: Text,
        operands: Seq<Operand>,
    },
}

/// What a field is compared with.
#[derive(Debug, Drop)]
pub enum Operand {
    Lit(LitTree),
    /// A variable.
    Var(Text),
    /// A variable and a field of the fact that it names.
    VarField(Text, Text),
    /// A field of the same fact.
    Own(Text),
}

/// The function of an accumulate.
#[derive(Clone, Copy, Debug, PartialEq, Eq)]
pub enum FoldWord {
    Count,
    Sum,
    Min,
    Max,
    Average,
}

/// The words by which a test of `Number(..)` speaks of the result. They mean the same.
#[derive(Clone, Copy, Debug, PartialEq, Eq)]
pub enum ResultWord {
    LongValue,
    IntValue,
}
