ghost use Rattle.std.specs.Prelude.{◌≡◌, true, map, IfSome, None};
ghost use Rattle.sr_ast.specs.declared.keyword.Keyword.{Keyword};
ghost use Rattle.sr_ast.specs.Keywords.{IsKeyword, IsNoKeyword};
ghost use Rattle.sr_parse_grammar.specs.Inner.Keywords.{IsTable, are_spelled, has};

use sr_ast::Keyword;

/// The key words by their first letters, each with its spelling.
const KEYWORDS: [&[(Keyword, &[u8])]; 26] = [
    &[
        (Keyword::Add, b"ADD"),
        (Keyword::Address, b"ADDRESS"),
        (Keyword::Alter, b"ALTER"),
        (Keyword::And, b"AND"),
        (Keyword::As, b"AS"),
        (Keyword::Asc, b"ASC"),
        (Keyword::At, b"AT"),
        (Keyword::Autoincrement, b"AUTOINCREMENT"),
    ],
    &[
        (Keyword::Begin, b"BEGIN"),
        (Keyword::Bigint, b"BIGINT"),
        (Keyword::By, b"BY"),
    ],
    &[
        (Keyword::Commit, b"COMMIT"),
        (Keyword::Consolidate, b"CONSOLIDATE"),
        (Keyword::Count, b"COUNT"),
        (Keyword::Create, b"CREATE"),
    ],
    &[
        (Keyword::Date, b"DATE"),
        (Keyword::Declare, b"DECLARE"),
        (Keyword::Default, b"DEFAULT"),
        (Keyword::Delete, b"DELETE"),
        (Keyword::Desc, b"DESC"),
        (Keyword::Drop, b"DROP"),
    ],
    &[
        (Keyword::Each, b"EACH"),
        (Keyword::Else, b"ELSE"),
        (Keyword::End, b"END"),
        (Keyword::Every, b"EVERY"),
    ],
    &[
        (Keyword::File, b"FILE"),
        (Keyword::For, b"FOR"),
        (Keyword::From, b"FROM"),
    ],
    &[(Keyword::Global, b"GLOBAL"), (Keyword::Grant, b"GRANT")],
    &[],
    &[
        (Keyword::If, b"IF"),
        (Keyword::Inner, b"INNER"),
        (Keyword::Insert, b"INSERT"),
        (Keyword::Int, b"INT"),
        (Keyword::Integer, b"INTEGER"),
        (Keyword::Into, b"INTO"),
        (Keyword::Is, b"IS"),
    ],
    &[(Keyword::Join, b"JOIN")],
    &[(Keyword::Key, b"KEY")],
    &[],
    &[(Keyword::Max, b"MAX"), (Keyword::Min, b"MIN")],
    &[
        (Keyword::New, b"NEW"),
        (Keyword::Not, b"NOT"),
        (Keyword::Null, b"NULL"),
    ],
    &[
        (Keyword::Of, b"OF"),
        (Keyword::Old, b"OLD"),
        (Keyword::On, b"ON"),
        (Keyword::Only, b"ONLY"),
        (Keyword::Option, b"OPTION"),
        (Keyword::Or, b"OR"),
        (Keyword::Order, b"ORDER"),
    ],
    &[
        (Keyword::Passthrough, b"PASSTHROUGH"),
        (Keyword::Primary, b"PRIMARY"),
        (Keyword::Publication, b"PUBLICATION"),
    ],
    &[],
    &[
        (Keyword::Referencing, b"REFERENCING"),
        (Keyword::Remote, b"REMOTE"),
        (Keyword::Resolve, b"RESOLVE"),
        (Keyword::Rollback, b"ROLLBACK"),
        (Keyword::Row, b"ROW"),
    ],
    &[
        (Keyword::Select, b"SELECT"),
        (Keyword::Send, b"SEND"),
        (Keyword::Set, b"SET"),
        (Keyword::Start, b"START"),
        (Keyword::Stop, b"STOP"),
        (Keyword::Subscribe, b"SUBSCRIBE"),
        (Keyword::Subscription, b"SUBSCRIPTION"),
        (Keyword::Sum, b"SUM"),
        (Keyword::Synchronize, b"SYNCHRONIZE"),
    ],
    &[
        (Keyword::Table, b"TABLE"),
        (Keyword::Then, b"THEN"),
        (Keyword::To, b"TO"),
        (Keyword::Trigger, b"TRIGGER"),
        (Keyword::Type, b"TYPE"),
    ],
    &[(Keyword::Update, b"UPDATE")],
    &[(Keyword::Values, b"VALUES"), (Keyword::Varchar, b"VARCHAR")],
    &[(Keyword::Where, b"WHERE"), (Keyword::Work, b"WORK")],
    &[],
    &[],
    &[],
];

/// The key word that a word is, without regard to the case of its letters. Its first letter leaves nine key words or fewer.
pub fn keyword_of(word: &[u8]) -> Option<Keyword>
    ensures found { IfSome result (λ keyword. IsKeyword word.now keyword) }
    ensures none { result ≡ None → IsNoKeyword word.now }
{
    found_in(&KEYWORDS, word)
}

/// The key word that a word is, by a table.
fn found_in(table: &[&[(Keyword, &[u8])]], word: &[u8]) -> Option<Keyword>
    requires { IsTable (map (λ row. map (λ entry. (entry.0, entry.1.now)) row.now) table.now) }
    ensures found { IfSome result (λ keyword. IsKeyword word.now keyword) }
    ensures none { result ≡ None → IsNoKeyword word.now }
{
    let first = word.first()?;
    let place = first.to_ascii_lowercase().checked_sub(b'a')?;
    let row = table.get(place as usize)?;
    found_among(row, word)
}

/// The key word that a word is, where it is one of these.
fn found_among(entries: &[(Keyword, &[u8])], word: &[u8]) -> Option<Keyword>
    requires { are_spelled (map (λ entry. (entry.0, entry.1.now)) entries.now) ≡ true }
    ensures found { IfSome result (λ keyword. IsKeyword word.now keyword) }
    ensures none { result ≡ None → (k : Keyword) → has (map (λ entry. (entry.0, entry.1.now)) entries.now) k ≡ true → IsKeyword word.now k → ⊥ }
{
    'entries: for entry in entries {
        if word.eq_ignore_ascii_case(entry.1) {
            return Some(entry.0);
        }
    }
    None
}
