//! The scripts that make the two databases.

use sr_base::NoMemory;
use std::alloc::Global;

/// `cons` has the partitions A and B of one table, for r1 and r2.
pub const CUSTOMERS_ABOVE: &str =
    "CREATE TABLE cust (id INTEGER PRIMARY KEY, rep VARCHAR(8), qty INTEGER); \
     CREATE PUBLICATION p (TABLE cust SUBSCRIBE BY rep); \
     GRANT REMOTE TO r1; \
     GRANT REMOTE TO r2; \
     CREATE SUBSCRIPTION TO p ('A') FOR r1; \
     CREATE SUBSCRIPTION TO p ('B') FOR r2; \
     START SUBSCRIPTION TO p ('A') FOR r1; \
     START SUBSCRIPTION TO p ('B') FOR r2;";

/// `r1` sends all of the table to `cons`.
pub const CUSTOMERS_BELOW: &str =
    "CREATE TABLE cust (id INTEGER PRIMARY KEY, rep VARCHAR(8), qty INTEGER); \
     GRANT CONSOLIDATE TO cons; \
     CREATE PUBLICATION p (TABLE cust); \
     CREATE SUBSCRIPTION TO p FOR cons; \
     START SUBSCRIPTION TO p FOR cons;";

/// `cons` publishes a table of long texts to r1.
pub const PAPERS_ABOVE: &str = "CREATE TABLE doc (id INTEGER PRIMARY KEY, body VARCHAR(32767)); \
     CREATE PUBLICATION p (TABLE doc); \
     GRANT REMOTE TO r1; \
     CREATE SUBSCRIPTION TO p FOR r1; \
     START SUBSCRIPTION TO p FOR r1;";

/// `r1` sends all of it to `cons`.
pub const PAPERS_BELOW: &str = "CREATE TABLE doc (id INTEGER PRIMARY KEY, body VARCHAR(32767)); \
     GRANT CONSOLIDATE TO cons; \
     CREATE PUBLICATION p (TABLE doc); \
     CREATE SUBSCRIPTION TO p FOR cons; \
     START SUBSCRIPTION TO p FOR cons;";

/// How many letters a long text has.
const LETTERS: usize = 29971;

/// The keys of the rows that have one.
const KEYS: &[u8] = b"123456";

/// A script that inserts rows with long texts in one transaction.
pub fn papers(alloc: Global) -> Result<Vec<u8>, NoMemory> {
    let mut script = Vec::new(alloc);
    match push_papers(&mut script) {
        Ok(()) => Ok(script),
        Err(refused) => {
            drop(script);
            Err(refused)
        }
    }
}

fn push_papers(script: &mut Vec<u8>) -> Result<(), NoMemory> {
    for key in KEYS {
        push_paper(script, *key)?;
    }
    script.extend_from_slice(b"COMMIT;")
}

fn push_paper(script: &mut Vec<u8>, key: u8) -> Result<(), NoMemory> {
    script.extend_from_slice(b"INSERT INTO doc VALUES (")?;
    script.push(key)?;
    script.extend_from_slice(b", '")?;
    push_letters(script)?;
    script.extend_from_slice(b"'); ")
}

fn push_letters(script: &mut Vec<u8>) -> Result<(), NoMemory> {
    for _ in 0..LETTERS {
        script.push(b'x')?;
    }
    Ok(())
}
