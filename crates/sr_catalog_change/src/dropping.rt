//! What speaks against DROP TABLE.

ghost use Rattle.std.specs.Prelude.{◌≡◌, IfOk};
ghost use Rattle.std.specs.List.{list_any};
ghost use Rattle.sr_catalog_schema.specs.Causes.{first_fault};
ghost use Rattle.sr_catalog_change.specs.Changes.{is_used, publication_names, drop_table_causes};

use sr_base::{Copied, Name, NoMemory};
use sr_catalog_schema::{DdlFault, Publication, Schema};
use sr_catalog_triggers::is_named;
use std::alloc::Global;

/// The fault that refuses DROP TABLE.
#[tactic(auto, unfolding(crate::specs::Changes::drop_table_causes, sr_catalog_schema::specs::Causes::first_fault))]
pub(crate) fn drop_table_fault(
    schema: &Schema,
    alloc: Global,
    name: &Name,
) -> Result<Option<DdlFault>, NoMemory>
    ensures { IfOk result (λ fault. fault ≡ first_fault (drop_table_causes schema.now name.now)) }
{
    if !schema.has_table(name) {
        let name = name.copy(alloc)?;
        return Ok(Some(DdlFault::Missing { name }));
    }
    if is_used(schema, alloc, name)? {
        let name = name.copy(alloc)?;
        return Ok(Some(DdlFault::InUse { name }));
    }
    Ok(None)
}

/// Whether a publication or a trigger names the table.
fn is_used(schema: &Schema, alloc: Global, name: &Name) -> Result<bool, NoMemory>
    ensures { IfOk result (λ used. used ≡ is_used schema.now name.now) }
{
    if is_published(schema.publications(), name) {
        return Ok(true);
    }
    is_named(alloc, name, schema.triggers())
}

fn is_published(publications: &[Publication], name: &Name) -> bool
    ensures { result ≡ list_any (publication_names name.now) publications.now }
{
    publications
        .iter()
        .any(|publication| publication_names(name, publication))
}

fn publication_names(table: &Name, publication: &Publication) -> bool
    ensures { result ≡ publication_names table.now publication.now }
{
    publication
        .articles
        .as_slice()
        .iter()
        .any(|article| table.bytes() == article.table.bytes())
}
