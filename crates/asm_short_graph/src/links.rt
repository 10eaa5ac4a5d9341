//! What functions and tables lead to: functions to those that they call and to the tables that they call, tables to their members.

ghost use Rattle.std.specs.Prelude.{◌≡◌, ◌++◌, IfOk, map};
ghost use Rattle.sem_words.specs.Lists.{text_bytes, list_items};
ghost use Rattle.asm_tree.specs.Views.{module_view, texts_view, function_view, table_view};
ghost use Rattle.asm_names.specs.Meanings.{meaning_view};
ghost use Rattle.asm_names.specs.Environments.{IsComplete};
ghost use Rattle.asm_names.specs.Scopes.{scope_view, IsCompleteScope};
ghost use Rattle.asm_short_uses.specs.Views.{use_view, uses_view};
ghost use Rattle.graph_reach.specs.Graph.{links_in};
ghost use Rattle.asm_lang.specs.Modules as plain;
ghost use Rattle.asm_lang_valid.specs.Scope.{module_meaning};
ghost use Rattle.asm_lang_valid.specs.Typing.{named};
ghost use Rattle.asm_lang_valid.specs.NameRows as rows;
ghost use Rattle.asm_short_graph.specs.Graphs as graph;
ghost use Rattle.asm_short_graph.specs.Graphs.{node_names, link_if, use_links, uses_links, members_links, function_links, table_links, module_links};
ghost use Rattle.asm_short_graph.specs.Numbered.{IsNumbered};

use crate::numbering::Nodes;
use asm_names::{Environment, Meaning, Scope};
use asm_short_uses::{Use, uses_of};
use asm_tree::{Function, Table};
use sem_words::{List, Text};
use std::alloc::{AllocError, Global};

fn is_function(meaning: Option<Meaning<'_>>) -> bool
    ensures { result ≡ rows.is_function (meaning_view meaning.entry) }
{
    matches!(meaning, Some(Meaning::Function(_)))
}

fn is_table(meaning: Option<Meaning<'_>>) -> bool
    ensures { result ≡ graph.is_table (meaning_view meaning.entry) }
{
    matches!(meaning, Some(Meaning::Table(_)))
}

// Whether a name in a function means a function of the module.
fn calls(scope: &Scope<'_, '_>, name: &Text) -> bool
    requires { IsCompleteScope scope.now }
    ensures { result ≡ rows.is_function (named (scope_view scope.now) (text_bytes name.now)) }
{
    is_function(scope.meaning(name.as_bytes()))
}

// .. a table.
fn enters(scope: &Scope<'_, '_>, name: &Text) -> bool
    requires { IsCompleteScope scope.now }
    ensures { result ≡ graph.is_table (named (scope_view scope.now) (text_bytes name.now)) }
{
    is_table(scope.meaning(name.as_bytes()))
}

// Whether a member of a table is a function of the module.
fn has_function(environment: &Environment<'_>, name: &Text) -> bool
    requires { IsComplete environment.now }
    ensures { result ≡ rows.is_function (module_meaning (module_view environment.now.home.now) (text_bytes name.now)) }
{
    is_function(environment.meaning(name.as_bytes()))
}

// Adds a link to what the module has of this name.
fn add_link(
    links: &mut Vec<usize>,
    nodes: &Nodes<'_>,
    is_linked: bool,
    name: &Text,
) -> Result<(), AllocError>
    ensures { IfOk result (λ _. (m : plain.Module) → IsNumbered (node_names m) nodes.now → links.new.items ≡ links.old.items ++ link_if is_linked m (text_bytes name.now)) }
{
    if !is_linked {
        return Ok(());
    }
    let number = nodes.number(name.as_bytes());
    links.push(number)?;
    Ok(())
}

// What a name in a statement leads to.
fn follow(
    links: &mut Vec<usize>,
    scope: &Scope<'_, '_>,
    nodes: &Nodes<'_>,
    used: &Use<'_>,
) -> Result<(), AllocError>
    requires complete { IsCompleteScope scope.now }
    requires numbered { IsNumbered (node_names (scope_view scope.now).home) nodes.now }
    ensures { IfOk result (λ _. links.new.items ≡ links.old.items ++ use_links (scope_view scope.now) (use_view used.now)) }
{
    match used {
        Use::Callee(name) => add_link(links, nodes, calls(scope, name), name),
        Use::Table(name) => add_link(links, nodes, enters(scope, name), name),
        Use::Variable(_) | Use::View(_) => Ok(()),
    }
}

fn follow_all(
    links: &mut Vec<usize>,
    scope: &Scope<'_, '_>,
    nodes: &Nodes<'_>,
    uses: &[Use<'_>],
) -> Result<(), AllocError>
    requires complete { IsCompleteScope scope.now }
    requires numbered { IsNumbered (node_names (scope_view scope.now).home) nodes.now }
    ensures { IfOk result (λ _. links.new.items ≡ links.old.items ++ uses_links (scope_view scope.now) (uses_view uses.now)) }
{
    for used in uses {
        follow(links, scope, nodes, used)?;
    }
    Ok(())
}

fn links_of_function<'a>(
    alloc: Global,
    environment: &Environment<'a>,
    nodes: &Nodes<'_>,
    function: &'a Function,
) -> Result<List<usize>, AllocError>
    requires complete { IsComplete environment.now }
    requires numbered { IsNumbered (node_names (module_view environment.now.home.now)) nodes.now }
    ensures { IfOk result (λ links. list_items links ≡ function_links (module_view environment.now.home.now) (function_view function.now)) }
{
    let scope = Scope::new(alloc, environment, function)?;
    let uses = uses_of(alloc, function.body.as_slice())?;
    let mut links = Vec::new(alloc);
    follow_all(&mut links, &scope, nodes, uses.as_slice())?;
    Ok(List::from_vec(links))
}

// What members of a table lead to.
fn add_members(
    links: &mut Vec<usize>,
    environment: &Environment<'_>,
    nodes: &Nodes<'_>,
    members: &[Text],
) -> Result<(), AllocError>
    requires complete { IsComplete environment.now }
    requires numbered { IsNumbered (node_names (module_view environment.now.home.now)) nodes.now }
    ensures { IfOk result (λ _. links.new.items ≡ links.old.items ++ members_links (module_view environment.now.home.now) (texts_view members.now)) }
{
    for member in members {
        let is_linked = has_function(environment, member);
        add_link(links, nodes, is_linked, member)?;
    }
    Ok(())
}

fn links_of_table(
    alloc: Global,
    environment: &Environment<'_>,
    nodes: &Nodes<'_>,
    table: &Table,
) -> Result<List<usize>, AllocError>
    requires complete { IsComplete environment.now }
    requires numbered { IsNumbered (node_names (module_view environment.now.home.now)) nodes.now }
    ensures { IfOk result (λ links. list_items links ≡ table_links (module_view environment.now.home.now) (table_view table.now)) }
{
    let mut links = Vec::new(alloc);
    add_members(&mut links, environment, nodes, table.members.as_slice())?;
    Ok(List::from_vec(links))
}

fn push_functions<'a>(
    alloc: Global,
    links: &mut Vec<List<usize>>,
    environment: &Environment<'a>,
    nodes: &Nodes<'_>,
    functions: &'a [Function],
) -> Result<(), AllocError>
    requires complete { IsComplete environment.now }
    requires numbered { IsNumbered (node_names (module_view environment.now.home.now)) nodes.now }
    ensures { IfOk result (λ _. links_in links.new.items ≡ links_in links.old.items ++ map (function_links (module_view environment.now.home.now)) (map function_view functions.now)) }
{
    for function in functions {
        let of_function = links_of_function(alloc, environment, nodes, function)?;
        links.push(of_function)?;
    }
    Ok(())
}

fn push_tables(
    alloc: Global,
    links: &mut Vec<List<usize>>,
    environment: &Environment<'_>,
    nodes: &Nodes<'_>,
    tables: &[Table],
) -> Result<(), AllocError>
    requires complete { IsComplete environment.now }
    requires numbered { IsNumbered (node_names (module_view environment.now.home.now)) nodes.now }
    ensures { IfOk result (λ _. links_in links.new.items ≡ links_in links.old.items ++ map (table_links (module_view environment.now.home.now)) (map table_view tables.now)) }
{
    for table in tables {
        let of_table = links_of_table(alloc, environment, nodes, table)?;
        links.push(of_table)?;
    }
    Ok(())
}

/// What each function and each table of the module leads to, by the numbers of the nodes.
pub fn links_of<'a>(
    alloc: Global,
    environment: &Environment<'a>,
    nodes: &Nodes<'_>,
) -> Result<Vec<List<usize>>, AllocError>
    requires complete { IsComplete environment.now }
    requires numbered { IsNumbered (node_names (module_view environment.now.home.now)) nodes.now }
    ensures { IfOk result (λ links. links_in links.items ≡ module_links (module_view environment.now.home.now)) }
{
    let home = environment.home();
    let mut links = Vec::new(alloc);
    push_functions(
        alloc,
        &mut links,
        environment,
        nodes,
        home.functions.as_slice(),
    )?;
    push_tables(
        alloc,
        &mut links,
        environment,
        nodes,
        home.tables.as_slice(),
    )?;
    Ok(links)
}
