//! Hashers for maps of labels.

ghost use Rattle.std.specs.Prelude.{◌≡◌};
ghost use Rattle.std.specs.List.{fold};
ghost use Rattle.asm_tree.specs.Views.{stmt_view, stmts_view, clauses_view, texts_view};
ghost use Rattle.key_hashes.specs.Hashes.{hashes, no_keys, with_key};
ghost use Rattle.asm_validate_nodes.specs.Labelled.{with_stmt, with_stmts, with_clauses};

use asm_tree::{Clause, Stmt};
use key_hashes::{KeyHashes, Seed};
use sem_words::Text;

/// For the labels in these statements.
pub fn label_hashes(stmts: &[Stmt]) -> KeyHashes
    ensures { result ≡ hashes (with_stmts no_keys (stmts_view stmts.now)) }
{
    let mut seed = Seed::new();
    add_stmts(&mut seed, stmts);
    seed.hashes()
}

#[cycle(labelled)]
#[tactic(auto, using(crate::proofs::NodeCounts::counts))]
fn add_stmt(seed: &mut Seed, stmt: &Stmt)
    ensures { seed.new ≡ with_stmt seed.old (stmt_view stmt.now) }
{
    match stmt {
        Stmt::Plain(_) | Stmt::Empty | Stmt::Return(_) | Stmt::Break(_) | Stmt::Continue(_) => {}
        Stmt::Block(body) => add_stmts(seed, body.as_slice()),
        Stmt::If(yes, no, _) => {
            add_stmt(seed, yes);
            if let Some(no) = no {
                add_stmt(seed, no);
            }
        }
        Stmt::While(_, body) => add_stmt(seed, body),
        Stmt::DoWhile(body, _) => add_stmt(seed, body),
        Stmt::For(_, body) => add_stmt(seed, body),
        Stmt::Labelled(names, body) => {
            add_names(seed, names.as_slice());
            add_stmt(seed, body);
        }
        Stmt::Switch(clauses, _) => add_clauses(seed, clauses.as_slice()),
    }
}

#[cycle(labelled)]
#[tactic(auto, using(crate::proofs::NodeCounts::counts))]
fn add_stmts(seed: &mut Seed, stmts: &[Stmt])
    ensures { seed.new ≡ with_stmts seed.old (stmts_view stmts.now) }
{
    for stmt in stmts {
        add_stmt(seed, stmt);
    }
}

#[cycle(labelled)]
#[tactic(auto, using(crate::proofs::NodeCounts::counts))]
fn add_clauses(seed: &mut Seed, clauses: &[Clause])
    ensures { seed.new ≡ with_clauses seed.old (clauses_view clauses.now) }
{
    for clause in clauses {
        add_stmts(seed, clause.body.as_slice());
    }
}

fn add_names(seed: &mut Seed, names: &[Text])
    ensures { seed.new ≡ fold with_key seed.old (texts_view names.now) }
{
    for name in names {
        seed.add(name.as_bytes());
    }
}
