//! What a document declares, as it stands in the answer to `textDocument/documentSymbol`.
ghost use Rattle.std.specs.Prelude.{◌≡◌, true, map, string_bytes, IfOk};
ghost use Rattle.serde_json.specs.Data.{string};
ghost use Rattle.serde_json.specs.View.{view};
ghost use Rattle.sentence_split.specs.Sentences.{sentences};
ghost use Rattle.utf16_doc.specs.Indexed.{position_in};
ghost use Rattle.doc_check.specs.Check.{checked};
ghost use Rattle.doc_check.specs.Document.{all_done};
ghost use Rattle.goals_query.specs.Symbols.{kind_number, detail, symbol_at, symbol_data, symbols_data};

use crate::places::range_value;
use base_core::NoMem;
use doc_check::DocCheck;
use prover_iface::{ItemKind, OutlineItem, Prover, add_listed_axioms};
use serde_json::{Map, Value, put};
use std::alloc::{AllocError, Global};
use utf16_doc::Doc;

/// The number of a kind.
fn kind_number(kind: ItemKind) -> u32
    ensures { result ≡ kind_number kind }
{
    match kind {
        ItemKind::Axiom => 14,
        ItemKind::Definition => 12,
        ItemKind::Inductive => 10,
        ItemKind::Theorem => 12,
        ItemKind::Admitted => 12,
    }
}

/// The statement, and the listed axioms.
fn detail(alloc: Global, item: &OutlineItem) -> Result<String, AllocError>
    ensures { IfOk result (λ text. string_bytes text ≡ detail item.now) }
{
    let mut text = String::new(alloc);
    let statement = item.statement.as_str();
    write!(&mut text, "{statement}")?;
    add_listed_axioms(&mut text, item)?;
    Ok(text)
}

fn detail_value(alloc: Global, item: &OutlineItem) -> Result<Value, NoMem>
    ensures { IfOk result (λ v. view v ≡ string (detail item.now)) }
{
    let text = detail(alloc, item)?;
    Ok(Value::try_from_str(alloc, text.as_str())?)
}

/// A declaration that stands at a range, which is given twice.
fn symbol_at(
    alloc: Global,
    item: &OutlineItem,
    range: Value,
    selection: Value,
) -> Result<Value, NoMem>
    requires { view selection ≡ view range }
    ensures { IfOk result (λ v. view v ≡ symbol_at (view range) item.now) }
{
    let detail = detail_value(alloc, item)?;
    let name = Value::try_from_str(alloc, item.name.as_str())?;
    let mut members = Map::new(alloc);
    put(&mut members, alloc, "detail", detail)?;
    put(
        &mut members,
        alloc,
        "kind",
        Value::from(kind_number(item.kind)),
    )?;
    put(&mut members, alloc, "name", name)?;
    put(&mut members, alloc, "range", range)?;
    put(&mut members, alloc, "selectionRange", selection)?;
    Ok(Value::Object(members))
}

/// A declaration.
fn symbol_value<P: Prover>(
    alloc: Global,
    doc: &Doc,
    check: &DocCheck<P>,
    item: &OutlineItem,
) -> Result<Value, NoMem>
    requires { doc.now.text ≡ check.now.text }
    ensures { let spans = sentences 0 0 check.now.text in
        IfOk result (λ v. view v ≡ symbol_data (position_in doc.now) spans item.now) }
{
    let from = check.begin_of(item.first as usize);
    let to = check.end_of(item.last as usize);
    let range = range_value(alloc, doc, from, to)?;
    let selection = range_value(alloc, doc, from, to)?;
    symbol_at(alloc, item, range, selection)
}

fn symbol_values<P: Prover>(
    alloc: Global,
    doc: &Doc,
    check: &DocCheck<P>,
    items: &[OutlineItem],
) -> Result<Vec<Value>, NoMem>
    requires { doc.now.text ≡ check.now.text }
    ensures { let spans = sentences 0 0 check.now.text in
        IfOk result (λ vs. map view vs.items ≡ map (symbol_data (position_in doc.now) spans) items.now) }
{
    let mut values = Vec::new(alloc);
    for item in items {
        values.push(symbol_value(alloc, doc, check, item)?)?;
    }
    Ok(values)
}

/// The answer to a request for what a document declares.
pub fn symbols_value<P: Prover>(
    alloc: Global,
    doc: &Doc,
    check: &DocCheck<P>,
    prover: &P,
) -> Result<Value, NoMem>
    requires same { doc.now.text ≡ check.now.text }
    requires ended { all_done check.now ≡ true }
    ensures { let outline = (checked P.means check.now.text).outline in
        let spans = sentences 0 0 check.now.text in
        IfOk result (λ v. view v ≡ symbols_data (position_in doc.now) spans outline) }
{
    let outline = check.outline(alloc, prover)?;
    Ok(Value::Array(symbol_values(alloc, doc, check, outline.as_slice())?))
}
