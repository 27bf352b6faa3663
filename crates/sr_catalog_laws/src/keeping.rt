//! What every catalog keeps. The function does nothing: it carries the law as its clause.

ghost use Rattle.sr_catalog_laws.specs.Inner.Keeping.{IsSoundCatalog};
ghost use Rattle.sr_catalog_script_laws.specs.Scripts.{IsMadeByStatements};
ghost use Rattle.sr_catalog_schema.specs.Catalogs.{Lists};

/// What every catalog keeps that accepted statements have made of a new one: no two things of a kind have one name; a table's key is some of
/// its columns, none twice; an article is of a table that is there, by columns of it among which are those of its key, with a WHERE that is a truth
/// without arithmetic and a SUBSCRIBE BY that is a column or a literal; a trigger is a CREATE TRIGGER whose actions are typed; and a user has a
/// table by one article at most of those to which he has started subscriptions.
pub fn catalogs_are_sound()
    ensures sound { (c : Lists) → IsMadeByStatements c → IsSoundCatalog c }
{}
