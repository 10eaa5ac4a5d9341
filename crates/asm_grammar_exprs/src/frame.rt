//! What is open round an expression.

ghost use Rattle.std.specs.Prelude.{◌≡◌, IfOk};
ghost use Rattle.asm_grammar_nodes.specs.Tall.{tall_view, talls_view};
ghost use Rattle.asm_laws_height.specs.Rises.{capped_rise};
ghost use Rattle.asm_grammar_nodes.specs.Rises.{rise_view};
ghost use Rattle.asm_grammar_exprs.specs.Views.{node_view, callee_view};
ghost use Rattle.asm_grammar_exprs.specs.Reach.{node_rise, reach_view, capped_reach, kind_reach};

use crate::reach::Reach;
use asm_grammar_nodes::{Height, Rise, TallExpr, TallExprs, Word};
use sem_words::{JsOp, JsUnary};
use std::alloc::{AllocError, Global};

/// A node that an expression completes, as its last part.
#[derive(Drop)]
pub(crate) enum Node {
    Prefix {
        operator: JsUnary,
        at: u64,
    },
    Binary {
        left: TallExpr,
        operator: JsOp,
        at: u64,
    },
    /// After the `:` of a conditional.
    Conditional {
        condition: TallExpr,
        first: TallExpr,
        at: u64,
    },
    Assignment {
        name: Word,
        at: u64,
    },
    Store {
        name: Word,
        index: TallExpr,
        at: u64,
    },
}

impl Node {
    /// The node with its last part.
    pub(crate) fn around(self, alloc: Global, last: TallExpr) -> Result<TallExpr, AllocError>
        ensures { IfOk result (λ r. tall_view r ≡ node_view self (tall_view last)) }
    {
        match self {
            Node::Prefix { operator, at } => TallExpr::unary(alloc, at, operator, last),
            Node::Binary { left, operator, at } => {
                TallExpr::binary(alloc, at, left, operator, last)
            }
            Node::Conditional {
                condition,
                first,
                at,
            } => TallExpr::conditional(alloc, at, condition, first, last),
            Node::Assignment { name, at } => TallExpr::assignment(alloc, at, name, last),
            Node::Store { name, index, at } => TallExpr::store(alloc, at, name, index, last),
        }
    }

    /// What this makes of the height of its last part.
    #[tactic(auto, using(crate::proofs::Rising::node_rises))]
    pub(crate) fn rise(&self) -> Rise
        ensures { rise_view result ≡ capped_rise 1001 (node_rise self.now) }
    {
        match self {
            Node::Prefix { operator: _, at: _ } => Rise::one_more(Height::none()),
            Node::Binary {
                left,
                operator,
                at: _,
            } => left.second_operand(*operator),
            Node::Conditional {
                condition,
                first,
                at: _,
            } => Rise::one_more(condition.height().or(first.height())),
            Node::Assignment { name: _, at: _ } => Rise::one_more(Height::none()),
            Node::Store {
                name: _,
                index,
                at: _,
            } => Rise::one_more(index.height()),
        }
    }
}

/// What a call calls: a function, or the element of a table.
#[derive(Drop)]
pub(crate) enum Callee {
    Function(Word),
    Element(Word, TallExpr),
}

impl Callee {
    /// The call with these arguments.
    pub(crate) fn called(self, alloc: Global, arguments: TallExprs) -> Result<TallExpr, AllocError>
        ensures { IfOk result (λ r. tall_view r ≡ callee_view self (talls_view arguments)) }
    {
        match self {
            Callee::Function(name) => TallExpr::call(alloc, name, arguments),
            Callee::Element(name, index) => TallExpr::table_call(alloc, name, index, arguments),
        }
    }
}

/// What a list of expressions is.
#[derive(Drop)]
pub(crate) enum Listing {
    /// Parts by commas; where the first of them is.
    Commas(u64),
    Arguments(Callee),
}

/// What waits for a token after an expression.
#[derive(Drop)]
pub(crate) enum Enclosure {
    Parentheses,
    /// The brackets after a name.
    Brackets(Word),
    /// Between the `?` and the `:` of a conditional, after its condition.
    Choice(TallExpr, u64),
}

/// What is open round an expression.
#[derive(Drop)]
pub(crate) enum Kind {
    Node(Node),
    /// The expressions of a list so far.
    Item(TallExprs, Listing),
    Closed(Enclosure),
}

/// What is open round an expression, and the level of the place where it stands.
#[derive(Drop)]
pub(crate) struct Frame {
    pub(crate) level: u8,
    pub(crate) kind: Kind,
}

impl Frame {
    /// Of this frame round an expression, where the frames below have this reach.
    #[tactic(auto, using(crate::proofs::Rising::node_rises))]
    pub(crate) fn reach(&self, below: Reach) -> Reach
        ensures { reach_view result ≡ capped_reach (kind_reach (reach_view below) self.now.kind) }
    {
        match &self.kind {
            Kind::Node(node) => below.with(node.rise()),
            Kind::Item(so_far, listing) => match listing {
                Listing::Commas(_) => below.with(Rise::one_more(so_far.height())),
                Listing::Arguments(_) => Reach::closed(),
            },
            Kind::Closed(_) => Reach::closed(),
        }
    }
}
