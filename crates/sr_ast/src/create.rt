use crate::action::Actions;
use crate::copying::{copy_three, copy_two};
use crate::expr::Expr;
use sr_base::{Copied, Kind, Name, NoMemory, Seq, Text, Value};
use std::alloc::Global;

/// `CREATE TABLE name (columns, PRIMARY KEY (key))`. No key where none is written, which the catalog refuses.
#[derive(Drop)]
pub struct CreateTable {
    pub name: Name,
    pub columns: Seq<ColumnRule>,
    pub key: Seq<Name>,
}

/// A column of a table. In the normal form each column of the key is `not_null`.
#[derive(Drop)]
pub struct ColumnRule {
    pub name: Name,
    pub kind: Kind,
    pub not_null: bool,
}

/// `CREATE PUBLICATION name (articles)`
#[derive(Drop)]
pub struct CreatePublication {
    pub name: Name,
    pub articles: Seq<ArticleRule>,
}

/// `TABLE table (columns) WHERE condition SUBSCRIBE BY by`; no columns where none are written, which means all.
#[derive(Drop)]
pub struct ArticleRule {
    pub table: Name,
    pub columns: Seq<Name>,
    pub condition: Option<Expr>,
    pub by: Option<Expr>,
}

/// `TO user TYPE FILE ADDRESS address`
#[derive(Drop)]
pub struct Grant {
    pub user: Name,
    pub address: Option<Text>,
}

/// `TO publication (value) FOR user`
#[derive(Drop)]
pub struct SubscriptionRule {
    pub publication: Name,
    pub value: Option<Value>,
    pub user: Name,
}

/// Which row an alias of a trigger stands for.
#[derive(Clone, Copy, PartialEq, Eq)]
pub enum Image {
    Old,
    New,
    Remote,
}

/// `CREATE TRIGGER name RESOLVE UPDATE OF columns ON table REFERENCING aliases FOR EACH ROW BEGIN variables actions END`;
/// no columns where none are written, which means all.
#[derive(Drop)]
pub struct CreateTrigger {
    pub name: Name,
    pub columns: Seq<Name>,
    pub table: Name,
    pub aliases: Seq<(Image, Name)>,
    pub variables: Seq<(Name, Kind)>,
    pub actions: Actions,
}

impl Copied for CreateTable {
    fn copy(&self, alloc: Global) -> Result<CreateTable, NoMemory> {
        let (name, columns, key) = copy_three(&self.name, &self.columns, &self.key, alloc)?;
        Ok(CreateTable { name, columns, key })
    }
}

impl Copied for ColumnRule {
    fn copy(&self, alloc: Global) -> Result<ColumnRule, NoMemory> {
        Ok(ColumnRule {
            name: self.name.copy(alloc)?,
            kind: self.kind,
            not_null: self.not_null,
        })
    }
}

impl Copied for CreatePublication {
    fn copy(&self, alloc: Global) -> Result<CreatePublication, NoMemory> {
        let (name, articles) = copy_two(&self.name, &self.articles, alloc)?;
        Ok(CreatePublication { name, articles })
    }
}

impl Copied for ArticleRule {
    fn copy(&self, alloc: Global) -> Result<ArticleRule, NoMemory> {
        let (table, columns) = copy_two(&self.table, &self.columns, alloc)?;
        let (condition, by) = copy_two(&self.condition, &self.by, alloc)?;
        Ok(ArticleRule {
            table,
            columns,
            condition,
            by,
        })
    }
}

impl Copied for Grant {
    fn copy(&self, alloc: Global) -> Result<Grant, NoMemory> {
        let (user, address) = copy_two(&self.user, &self.address, alloc)?;
        Ok(Grant { user, address })
    }
}

impl Copied for SubscriptionRule {
    fn copy(&self, alloc: Global) -> Result<SubscriptionRule, NoMemory> {
        let (publication, value, user) = copy_three(
            &self.publication,
            &self.value,
            &self.user,
            alloc,
        )?;
        Ok(SubscriptionRule {
            publication,
            value,
            user,
        })
    }
}

impl Copied for Image {
    fn copy(&self, _alloc: Global) -> Result<Image, NoMemory> {
        Ok(*self)
    }
}

impl Copied for CreateTrigger {
    fn copy(&self, alloc: Global) -> Result<CreateTrigger, NoMemory> {
        let (name, columns, table) = copy_three(&self.name, &self.columns, &self.table, alloc)?;
        let (aliases, variables, actions) = copy_three(
            &self.aliases,
            &self.variables,
            &self.actions,
            alloc,
        )?;
        Ok(CreateTrigger {
            name,
            columns,
            table,
            aliases,
            variables,
            actions,
        })
    }
}
