//! Statements of asm.js, one after another.
ghost use Rattle.std.specs.Prelude.{◌≡◌, [], ◌∷◌, ◌++◌, ◌↔◌, List, map, IfOk, IsTrue};
ghost use Rattle.sem_words.specs.Lists.{list_items};
ghost use Rattle.asm_lang.specs.Modules as plain;
ghost use Rattle.asm_tree.specs.Views.{expr_view, stmt_view, function_view};
ghost use Rattle.wasm2js_translation.specs.Names as names;
ghost use Rattle.wasm2js_translation.specs.Words as words;
ghost use Rattle.wasm2js_translation.specs.Words.{simple_statement, signed_number, int_of, test_of, part_of};
ghost use Rattle.wasm2js_translation.specs.Helpers as helpers;
ghost use Rattle.wasm2js_nodes.specs.Names.{name_view, fixed_view};
ghost use Rattle.wasm2js_terms.specs.Views.{term_view, terms_view};
ghost use Rattle.wasm2js_build.specs.Blocks.{statements_of};
ghost use Rattle.wasm2js_build.specs.Steps.{step_view};

use crate::building::{expr, int_expr};
use crate::steps::{Step, statement};
use asm_tree::{Function, Stmt};
use sem_words::List;
use std::alloc::{AllocError, Global};
use wasm2js_nodes::{
    Fixed, Name, block_statement, gives, if_else, if_only, locals_of, params_of, part_statement,
    spell, trap_call, while_loop,
};
use wasm2js_terms::Term;

/// A list of statements that grows at its end. Contracts read the statements by `statements_of`.
#[derive(Drop)]
pub struct Block {
    pub(crate) alloc: Global,
    statements: List<Stmt>,
}

impl Block {
    /// No statement. It takes no memory.
    pub fn new(alloc: Global) -> Block
        ensures { statements_of result ≡ [] }
    {
        Block {
            alloc,
            statements: List::new(alloc),
        }
    }

    /// The statements, in a list without room for more.
    pub fn into_list(self) -> List<Stmt>
        ensures { map stmt_view (list_items result) ≡ statements_of self }
    {
        let mut statements = self.statements.into_vec();
        statements.shrink_to_fit();
        List::from_vec(statements)
    }

    /// The statements as one, `{..}`.
    pub fn into_statement(self) -> Stmt
        ensures { stmt_view result ≡ helpers.block_of (statements_of self) }
    {
        block_statement(self.into_list())
    }

    /// The statements as a part of an `if`.
    pub fn into_part(self) -> Stmt
        ensures { stmt_view result ≡ part_of (statements_of self) }
    {
        part_statement(self.into_list())
    }

    /// Whether there is no statement.
    pub fn is_empty(&self) -> bool
        ensures { IsTrue result ↔ (statements_of self.now ≡ []) }
    {
        self.statements.is_empty()
    }

    /// One more statement.
    pub fn push(&mut self, statement: Stmt) -> Result<(), AllocError>
        ensures { IfOk result (λ _. statements_of self.new ≡ statements_of self.old ++ stmt_view statement ∷ []) }
    {
        match self.statements.push(statement) {
            Ok(()) => Ok(()),
            Err(_) => Err(AllocError),
        }
    }

    // One more step.
    #[tactic(auto, using(crate::proofs::Replacing::nothing_in_place))]
    fn act(&mut self, step: &Step<'_>) -> Result<(), AllocError>
        ensures { IfOk result (λ _. statements_of self.new ≡ statements_of self.old ++ simple_statement (step_view step.now) ∷ []) }
    {
        let statement = statement(self.alloc, &[], step)?;
        self.push(statement)
    }

    /// `to=value;`
    pub fn put(&mut self, to: Name, value: &Term<'_>) -> Result<(), AllocError>
        ensures { IfOk result (λ _. statements_of self.new ≡ statements_of self.old ++ simple_statement (words.put (name_view to) (term_view value.now)) ∷ []) }
    {
        self.act(&Step::Put(to, value))
    }

    /// `to=helper(arguments)|0;`
    pub fn ask(&mut self, to: Name, helper: Fixed, arguments: &[Term<'_>]) -> Result<(), AllocError>
        ensures { IfOk result (λ _. statements_of self.new ≡ statements_of self.old ++ simple_statement (words.ask (name_view to) (fixed_view helper) (terms_view arguments.now)) ∷ []) }
    {
        self.act(&Step::Ask(to, helper, arguments))
    }

    /// `helper(arguments);`
    pub fn tell(&mut self, helper: Fixed, arguments: &[Term<'_>]) -> Result<(), AllocError>
        ensures { IfOk result (λ _. statements_of self.new ≡ statements_of self.old ++ simple_statement (words.tell (fixed_view helper) (terms_view arguments.now)) ∷ []) }
    {
        self.act(&Step::Tell(helper, arguments))
    }

    /// `if(value>>>0>most)$trap(kind);`
    pub fn guard(&mut self, value: &Term<'_>, most: u64, kind: u32) -> Result<(), AllocError>
        ensures { IfOk result (λ _. statements_of self.new ≡ statements_of self.old ++ simple_statement (words.guard (term_view value.now) most kind) ∷ []) }
    {
        self.act(&Step::Guard(value, most, kind))
    }

    /// `$trap(kind);`
    pub fn stop(&mut self, kind: u32) -> Result<(), AllocError>
        ensures { IfOk result (λ _. statements_of self.new ≡ statements_of self.old ++ simple_statement (words.stop kind) ∷ []) }
    {
        self.act(&Step::Stop(kind))
    }

    /// `$u8[at>>0]=value;`
    pub fn write_byte(&mut self, at: &Term<'_>, value: &Term<'_>) -> Result<(), AllocError>
        ensures { IfOk result (λ _. statements_of self.new ≡ statements_of self.old ++ simple_statement (words.write_byte (term_view at.now) (term_view value.now)) ∷ []) }
    {
        self.act(&Step::WriteByte(at, value))
    }

    /// `$w[at>>2]=value;`
    pub fn write_whole(&mut self, at: &Term<'_>, value: &Term<'_>) -> Result<(), AllocError>
        ensures { IfOk result (λ _. statements_of self.new ≡ statements_of self.old ++ simple_statement (words.write_whole (term_view at.now) (term_view value.now)) ∷ []) }
    {
        self.act(&Step::WriteWhole(at, value))
    }

    /// `if(test){inner}`
    pub fn when(&mut self, test: &Term<'_>, inner: Block) -> Result<(), AllocError>
        ensures { IfOk result (λ _. statements_of self.new ≡ statements_of self.old ++ helpers.when (term_view test.now) (statements_of inner) ∷ []) }
    {
        let test = int_expr(self.alloc, test)?;
        let statement = if_only(self.alloc, test, inner.into_statement())?;
        self.push(statement)
    }

    /// `if(test){first}else{second}`
    pub fn when_else(
        &mut self,
        test: &Term<'_>,
        first: Block,
        second: Block,
    ) -> Result<(), AllocError>
        ensures { IfOk result (λ _. statements_of self.new ≡ statements_of self.old ++ plain.if_else (int_of (term_view test.now)) (helpers.block_of (statements_of first)) (helpers.block_of (statements_of second)) ∷ []) }
    {
        let test = int_expr(self.alloc, test)?;
        let statement = if_else(
            self.alloc,
            test,
            first.into_statement(),
            second.into_statement(),
        )?;
        self.push(statement)
    }

    /// `if(test)$trap(kind);`
    pub fn trap_when(&mut self, test: &Term<'_>, kind: u32) -> Result<(), AllocError>
        ensures { IfOk result (λ _. statements_of self.new ≡ statements_of self.old ++ plain.if_only (int_of (term_view test.now)) (words.trap_call kind) ∷ []) }
    {
        let test = int_expr(self.alloc, test)?;
        let trap = trap_call(self.alloc, kind)?;
        let statement = if_only(self.alloc, test, trap)?;
        self.push(statement)
    }

    /// `while(test){inner}`
    pub fn repeat(&mut self, test: &Term<'_>, inner: Block) -> Result<(), AllocError>
        ensures { IfOk result (λ _. statements_of self.new ≡ statements_of self.old ++ helpers.repeat (term_view test.now) (statements_of inner) ∷ []) }
    {
        let test = int_expr(self.alloc, test)?;
        let statement = while_loop(self.alloc, test, inner.into_statement())?;
        self.push(statement)
    }

    /// `return value|0;`
    pub fn gives(&mut self, value: &Term<'_>) -> Result<(), AllocError>
        ensures { IfOk result (λ _. statements_of self.new ≡ statements_of self.old ++ helpers.gives (term_view value.now) ∷ []) }
    {
        let value = expr(self.alloc, value)?;
        let statement = gives(self.alloc, value)?;
        self.push(statement)
    }
}

/// A function of ints, whose local variables begin with 0.
#[tactic(auto, using(wasm2js_nodes::proofs::Lists::stmts_are))]
pub fn function(
    alloc: Global,
    name: Name,
    params: &[Name],
    locals: &[Name],
    body: Block,
) -> Result<Function, AllocError>
    ensures { IfOk result (λ f. function_view f ≡ helpers.function_of (name_view name) (map name_view params.now) (map name_view locals.now) (statements_of body)) }
{
    let name = spell(alloc, name)?;
    let params = params_of(alloc, params)?;
    let locals = locals_of(alloc, locals)?;
    Ok(Function {
        name,
        params,
        locals,
        body: body.into_list(),
    })
}
