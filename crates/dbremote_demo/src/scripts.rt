//! The scripts of the demonstration that are the same each time.

ghost use Rattle.std.specs.Prelude.{◌≡◌};
ghost use Rattle.dbremote_demo.specs.Courses.{first_script, last_script};

use dbremote_demo_draws::DemoSite;

/// The table, the publication by which a row goes to its representative, the three partners, and a trigger that adds both sides' changes of a
/// quantity that conflict.
pub const CONSOLIDATED: &[u8] =
    b"CREATE TABLE cust (id INTEGER PRIMARY KEY, rep VARCHAR(8), qty INTEGER);
CREATE PUBLICATION p (TABLE cust SUBSCRIBE BY rep);
GRANT REMOTE TO r1;
GRANT REMOTE TO r2;
GRANT REMOTE TO r3;
CREATE SUBSCRIPTION TO p ('r1') FOR r1;
CREATE SUBSCRIPTION TO p ('r2') FOR r2;
CREATE SUBSCRIPTION TO p ('r3') FOR r3;
START SUBSCRIPTION TO p ('r1') FOR r1;
START SUBSCRIPTION TO p ('r2') FOR r2;
START SUBSCRIPTION TO p ('r3') FOR r3;
CREATE TRIGGER fix RESOLVE UPDATE OF qty ON cust
REFERENCING OLD AS o NEW AS n REMOTE AS r FOR EACH ROW
BEGIN SET n.qty = o.qty + n.qty - r.qty; END;
";

/// The same table, all of which goes to the consolidated database.
pub const REMOTE: &[u8] = b"CREATE TABLE cust (id INTEGER PRIMARY KEY, rep VARCHAR(8), qty INTEGER);
GRANT CONSOLIDATE TO cons;
CREATE PUBLICATION p (TABLE cust);
CREATE SUBSCRIPTION TO p FOR cons;
START SUBSCRIPTION TO p FOR cons;
";

/// A last row for each database below.
pub const LAST_OF_CONS: &[u8] = b"INSERT INTO cust VALUES (-1, 'r1', 0); COMMIT;
INSERT INTO cust VALUES (-2, 'r2', 0); COMMIT;
INSERT INTO cust VALUES (-3, 'r3', 0); COMMIT;
";

/// A last row of each database below.
pub const LAST_OF_R1: &[u8] = b"INSERT INTO cust VALUES (-4, 'r1', 0); COMMIT;\n";

pub const LAST_OF_R2: &[u8] = b"INSERT INTO cust VALUES (-5, 'r2', 0); COMMIT;\n";

pub const LAST_OF_R3: &[u8] = b"INSERT INTO cust VALUES (-6, 'r3', 0); COMMIT;\n";

/// The script that a database begins with.
#[tactic(auto, unfolding(crate::specs::Courses::first_script, crate::specs::Scripts::consolidated, crate::specs::Scripts::remote))]
pub(crate) fn first_script(demo_site: DemoSite) -> &'static [u8]
    ensures script { result.now ≡ first_script demo_site }
{
    match demo_site {
        DemoSite::Cons => CONSOLIDATED,
        DemoSite::R1 | DemoSite::R2 | DemoSite::R3 => REMOTE,
    }
}

/// The script that a database ends with.
#[tactic(auto, unfolding(crate::specs::Courses::last_script, crate::specs::Scripts::last_of_cons, crate::specs::Scripts::last_of_r1, crate::specs::Scripts::last_of_r2, crate::specs::Scripts::last_of_r3))]
pub(crate) fn last_script(demo_site: DemoSite) -> &'static [u8]
    ensures script { result.now ≡ last_script demo_site }
{
    match demo_site {
        DemoSite::Cons => LAST_OF_CONS,
        DemoSite::R1 => LAST_OF_R1,
        DemoSite::R2 => LAST_OF_R2,
        DemoSite::R3 => LAST_OF_R3,
    }
}
