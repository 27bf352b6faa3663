use crate::named::HasName;
use sr_ast::Expr;
use sr_base::{Copied, Name, NoMemory, Seq};
use std::alloc::Global;

/// A publication: its articles, of different tables.
#[derive(Drop)]
pub struct Publication {
    pub name: Name,
    pub articles: Seq<Article>,
}

/// An article: its table, the columns that it has, its WHERE and its SUBSCRIBE BY.
#[derive(Drop)]
pub struct Article {
    pub table: Name,
    pub columns: Seq<Name>,
    pub condition: Option<Expr>,
    pub by: Option<Expr>,
}

impl HasName for Publication {
    ghost name_of = { λ p. p.name };

    fn name(&self) -> &Name {
        &self.name
    }
}

impl Copied for Publication {
    fn copy(&self, alloc: Global) -> Result<Publication, NoMemory> {
        Ok(Publication {
            name: self.name.copy(alloc)?,
            articles: self.articles.copy(alloc)?,
        })
    }
}

impl Copied for Article {
    fn copy(&self, alloc: Global) -> Result<Article, NoMemory> {
        Ok(Article {
            table: self.table.copy(alloc)?,
            columns: self.columns.copy(alloc)?,
            condition: self.condition.copy(alloc)?,
            by: self.by.copy(alloc)?,
        })
    }
}
