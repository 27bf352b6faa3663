use crate::copying::{copy_three, copy_two};
use crate::expr::Expr;
use sr_base::{Copied, Name, NoMemory, Seq};
use std::alloc::Global;

/// A statement that changes rows.
#[derive(Drop)]
pub enum Dml {
    Insert(Insert),
    Update(Update),
    Delete(Delete),
}

/// `INSERT INTO table (columns) VALUES rows`; no columns where none are written, which means all.
#[derive(Drop)]
pub struct Insert {
    pub table: Name,
    pub columns: Seq<Name>,
    pub rows: Seq<Seq<Expr>>,
}

/// `UPDATE table SET sets WHERE condition`
#[derive(Drop)]
pub struct Update {
    pub table: Name,
    pub sets: Seq<(Name, Expr)>,
    pub condition: Option<Expr>,
}

/// `DELETE FROM table WHERE condition`
#[derive(Drop)]
pub struct Delete {
    pub table: Name,
    pub condition: Option<Expr>,
}

/// `SELECT items FROM source joins WHERE condition ORDER BY order`
#[derive(Drop)]
pub struct Select {
    pub items: Items,
    pub source: Source,
    pub joins: Seq<Join>,
    pub condition: Option<Expr>,
    pub order: Seq<OrderBy>,
}

/// What a SELECT lists: all columns, or items.
#[derive(Drop)]
pub enum Items {
    All,
    Each(Seq<Item>),
}

/// An item of a SELECT: an expression, or an aggregate.
#[derive(Drop)]
pub enum Item {
    Value(Expr),
    Count,
    Sum(Expr),
    Min(Expr),
    Max(Expr),
}

/// `table AS alias`
#[derive(Drop)]
pub struct Source {
    pub table: Name,
    pub alias: Option<Name>,
}

/// `JOIN source ON condition`
#[derive(Drop)]
pub struct Join {
    pub source: Source,
    pub condition: Expr,
}

/// `table.column DESC`
#[derive(Drop)]
pub struct OrderBy {
    pub table: Option<Name>,
    pub column: Name,
    pub descending: bool,
}

impl Copied for Dml {
    fn copy(&self, alloc: Global) -> Result<Dml, NoMemory> {
        match self {
            Dml::Insert(insert) => Ok(Dml::Insert(insert.copy(alloc)?)),
            Dml::Update(update) => Ok(Dml::Update(update.copy(alloc)?)),
            Dml::Delete(delete) => Ok(Dml::Delete(delete.copy(alloc)?)),
        }
    }
}

impl Copied for Insert {
    fn copy(&self, alloc: Global) -> Result<Insert, NoMemory> {
        let (table, columns, rows) = copy_three(&self.table, &self.columns, &self.rows, alloc)?;
        Ok(Insert {
            table,
            columns,
            rows,
        })
    }
}

impl Copied for Update {
    fn copy(&self, alloc: Global) -> Result<Update, NoMemory> {
        let (table, sets, condition) = copy_three(&self.table, &self.sets, &self.condition, alloc)?;
        Ok(Update {
            table,
            sets,
            condition,
        })
    }
}

impl Copied for Delete {
    fn copy(&self, alloc: Global) -> Result<Delete, NoMemory> {
        let (table, condition) = copy_two(&self.table, &self.condition, alloc)?;
        Ok(Delete { table, condition })
    }
}

impl Copied for Select {
    fn copy(&self, alloc: Global) -> Result<Select, NoMemory> {
        let (items, source, joins) = copy_three(&self.items, &self.source, &self.joins, alloc)?;
        let (condition, order) = copy_two(&self.condition, &self.order, alloc)?;
        Ok(Select {
            items,
            source,
            joins,
            condition,
            order,
        })
    }
}

impl Copied for Items {
    fn copy(&self, alloc: Global) -> Result<Items, NoMemory> {
        match self {
            Items::All => Ok(Items::All),
            Items::Each(items) => Ok(Items::Each(items.copy(alloc)?)),
        }
    }
}

impl Copied for Item {
    fn copy(&self, alloc: Global) -> Result<Item, NoMemory> {
        match self {
            Item::Value(expr) => Ok(Item::Value(expr.copy(alloc)?)),
            Item::Count => Ok(Item::Count),
            Item::Sum(expr) => Ok(Item::Sum(expr.copy(alloc)?)),
            Item::Min(expr) => Ok(Item::Min(expr.copy(alloc)?)),
            Item::Max(expr) => Ok(Item::Max(expr.copy(alloc)?)),
        }
    }
}

impl Copied for Source {
    fn copy(&self, alloc: Global) -> Result<Source, NoMemory> {
        let (table, alias) = copy_two(&self.table, &self.alias, alloc)?;
        Ok(Source { table, alias })
    }
}

impl Copied for Join {
    fn copy(&self, alloc: Global) -> Result<Join, NoMemory> {
        let (source, condition) = copy_two(&self.source, &self.condition, alloc)?;
        Ok(Join { source, condition })
    }
}

impl Copied for OrderBy {
    fn copy(&self, alloc: Global) -> Result<OrderBy, NoMemory> {
        let (table, column) = copy_two(&self.table, &self.column, alloc)?;
        Ok(OrderBy {
            table,
            column,
            descending: self.descending,
        })
    }
}
