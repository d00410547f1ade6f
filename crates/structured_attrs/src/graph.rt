//! Graphs of references among structured attributes.
ghost use Rattle.std.specs.Prelude.{◌≡◌, ◌++◌, None, Some, Err, IfOk, OnOk, OnErr, codes, map, string_bytes};
ghost use Rattle.nix_names.specs.Base32.{base32};
ghost use Rattle.serde_json.specs.Data.{put as with_member, string};
ghost use Rattle.serde_json.specs.View.{view, items_view, members_view};
ghost use Rattle.structured_attrs.specs.Graphs.{graph_data, graph_requests, member_requests, path_items, request_texts, row_data, row_items, shown_request, with_ca};

use crate::attributes::Attributes;
use crate::fault::AttributesFault;
use crate::strings::{object_at, texts};
use nix_names::{StorePath, to_base32};
use serde_json::{Map, Number, Value, put};
use std::alloc::{AllocError, Global};
use valid_table::{Nar, Registration};

/// A path of a graph, with what `.attrs.json` tells of it.
#[derive(Debug, Drop)]
pub struct GraphRow {
    /// The path and its references.
    pub registration: Registration,
    /// Its archive.
    pub nar: Nar,
    /// The lengths of the archives of all paths of its closure together, in bytes.
    pub closure_size: u64,
    /// Its content address, as `text:sha256:` and base-32, where it has one.
    pub ca: Option<String>,
}

/// A key of exportReferencesGraph, and the texts of which a graph is asked under it.
#[derive(Debug, Drop)]
pub struct GraphRequest {
    /// The key, under which the graph is to stand.
    pub key: String,
    /// The texts, which are store paths where all is well.
    pub paths: Vec<String>,
}

impl Attributes {
    ghost use Rattle.structured_attrs.specs.Attributes.{attributes};

    /// Sets an attribute to an array of records, one for each row in the order given: `ca` where it
    /// has one, `closureSize`, `narHash`, `narSize`, `path` and `references`. Want of memory is its
    /// only fault, and leaves the attributes as they were. Costs one pass over the rows and memory
    /// for the records.
    pub fn set_graph(
        &mut self,
        alloc: Global,
        key: &str,
        rows: &[GraphRow],
    ) -> Result<(), AllocError>
        ensures ok { OnOk result (attributes self.new
            ≡ with_member key.now (graph_data rows.now) (attributes self.old)) }
        ensures err { OnErr result (attributes self.new ≡ attributes self.old) }
    {
        let records = row_records(alloc, rows)?;
        put(&mut self.members, alloc, key, Value::Array(records))
    }

    /// The keys of exportReferencesGraph, by their bytes, and the texts of each: of a string that
    /// one, of an array those of its items, of an object those of its values, of null none. None at
    /// all where exportReferencesGraph is no object.
    ///
    /// Answers `BadAttributes` exactly where a key is `outputs`, or a value is a number or a truth
    /// value or has something else than strings in it; else `NoMemory` where memory is refused.
    /// Costs one pass over exportReferencesGraph and memory for the answer.
    pub fn graph_requests(&self, alloc: Global) -> Result<Vec<GraphRequest>, AttributesFault>
        ensures ok { IfOk result (λ requests. graph_requests (attributes self.now)
            ≡ Some (map shown_request requests.items)) }
        ensures bad { result ≡ Err AttributesFault.BadAttributes
            → graph_requests (attributes self.now) ≡ None }
    {
        match object_at(&self.members, "exportReferencesGraph") {
            Some(asked) => requests_of(alloc, asked),
            None => Ok(Vec::new(alloc)),
        }
    }
}

// The requests of an object's members.
fn requests_of(
    alloc: Global,
    members: &Map<String, Value>,
) -> Result<Vec<GraphRequest>, AttributesFault>
    ensures ok { IfOk result (λ requests. member_requests (members_view members.now.entries)
        ≡ Some (map shown_request requests.items)) }
    ensures bad { result ≡ Err AttributesFault.BadAttributes
        → member_requests (members_view members.now.entries) ≡ None }
{
    let mut requests = Vec::new(alloc);
    'members: for (key, member) in members.iter() {
        requests.push(request_of(alloc, key, member)?)?;
    }
    Ok(requests)
}

// The request of one member.
fn request_of(alloc: Global, key: &String, value: &Value) -> Result<GraphRequest, AttributesFault>
    ensures key { IfOk result (λ request. string_bytes request.key ≡ string_bytes key.now) }
    ensures ok { IfOk result (λ request. request_texts (string_bytes key.now) (view value.now)
        ≡ Some (map (λ s. string_bytes s) request.paths.items)) }
    ensures bad { result ≡ Err AttributesFault.BadAttributes
        → request_texts (string_bytes key.now) (view value.now) ≡ None }
{
    if key.as_str() == "outputs" {
        return Err(AttributesFault::BadAttributes);
    }
    let paths = texts(alloc, value)?;
    Ok(GraphRequest {
        key: String::from_str(alloc, key.as_str())?,
        paths,
    })
}

// The records of some rows, in their order.
fn row_records(alloc: Global, rows: &[GraphRow]) -> Result<Vec<Value>, AllocError>
    ensures { IfOk result (λ records. items_view records.items ≡ row_items rows.now) }
{
    let mut records = Vec::new(alloc);
    'rows: for row in rows {
        records.push(row_record(alloc, row)?)?;
    }
    Ok(records)
}

// The record of a row.
fn row_record(alloc: Global, row: &GraphRow) -> Result<Value, AllocError>
    ensures { IfOk result (λ value. view value ≡ row_data row.now) }
{
    let mut members = Map::new(alloc);
    let references = path_strings(alloc, row.registration.info.references())?;
    put(&mut members, alloc, "references", Value::Array(references))?;
    let path = Value::try_from_str(alloc, row.registration.path.as_str())?;
    put(&mut members, alloc, "path", path)?;
    let size = Value::Number(Number::from(row.nar.size()));
    put(&mut members, alloc, "narSize", size)?;
    put(&mut members, alloc, "narHash", hash_text(alloc, &row.nar)?)?;
    let closure = Value::Number(Number::from(row.closure_size));
    put(&mut members, alloc, "closureSize", closure)?;
    put_ca(alloc, row, &mut members)?;
    Ok(Value::Object(members))
}

// Puts the content address of a row into its record, where it has one.
fn put_ca(alloc: Global, row: &GraphRow, members: &mut Map<String, Value>) -> Result<(), AllocError>
    ensures { OnOk result (members_view members.new.entries
        ≡ with_ca row.now.ca (members_view members.old.entries)) }
{
    match &row.ca {
        Some(ca) => {
            let ca = Value::try_from_str(alloc, ca.as_str())?;
            put(members, alloc, "ca", ca)
        }
        None => Ok(()),
    }
}

// The SHA-256 of an archive in base-32, with its algorithm's name.
fn hash_text(alloc: Global, nar: &Nar) -> Result<Value, AllocError>
    ensures { IfOk result (λ text. view text ≡ string (codes "sha256:" ++ base32 nar.now.hash)) }
{
    let Ok(digits) = to_base32(alloc, &nar.hash()) else {
        return Err(AllocError);
    };
    let mut text = String::from_str(alloc, "sha256:")?;
    text.push_str(digits.as_str())?;
    Ok(Value::String(text))
}

// Some paths as strings.
fn path_strings(alloc: Global, paths: &[StorePath]) -> Result<Vec<Value>, AllocError>
    ensures { IfOk result (λ items. items_view items.items ≡ path_items paths.now) }
{
    let mut items = Vec::new(alloc);
    'paths: for path in paths {
        items.push(Value::try_from_str(alloc, path.as_str())?)?;
    }
    Ok(items)
}
