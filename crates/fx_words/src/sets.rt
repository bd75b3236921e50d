//! Sets of characters by name.
ghost use Rattle.std.specs.Prelude.{◌≡◌, ◌==◌, ◌<◌, IfOk, codes, map, option_map, string_bytes};
ghost use Rattle.std.specs.List.{join_by, slice_split};
ghost use Rattle.fx_words.specs.Parts.{text_in, texts};
ghost use Rattle.fx_words.specs.Sets.{first_name, list_of, listed, lists_in, rows_of, sets, value_of};

use crate::parts::{has, list_values, value_in};
use std::alloc::{AllocError, Global};

/// Each set: its name, and its characters as a list of hexadecimal numbers and ranges, without control characters.
pub const SETS: [(&str, &str); 26] = [
    ("ascii", "20-7e"),
    ("latin-1", "20-7e,a0-ff"),
    (
        "latin-9",
        "20-7e,a0-a3,a5,a7,a9-b3,b5-b7,b9-bb,bf-ff,152-153,160-161,178,17d-17e,20ac",
    ),
    (
        "wgl4",
        "20-7e,a0-17f,192,1fa-1ff,2c6-2c7,2c9,2d8-2dd,37e,384-38a,38c,38e-3a1,3a3-3ce,401-40c,40e-44f,451-45c,45e-45f,\
         490-491,1e80-1e85,1ef2-1ef3,2013-2015,2017-201e,2020-2022,2026,2030,2032-2033,2039-203a,203c,203e,2044,207f,\
         20a3-20a4,20a7,20ac,2105,2113,2116,2122,2126,212e,215b-215e,2190-2195,21a8,2202,2206,220f,2211-2212,2215,\
         2219-221a,221e-221f,2229,222b,2248,2260-2261,2264-2265,2302,2310,2320-2321,2500,2502,250c,2510,2514,2518,251c,\
         2524,252c,2534,253c,2550-256c,2580,2584,2588,258c,2590-2593,25a0-25a1,25aa-25ac,25b2,25ba,25bc,25c4,25ca-25cb,\
         25cf,25d8-25d9,25e6,263a-263c,2640,2642,2660,2663,2665-2666,266a-266b,fb01-fb02",
    ),
    (
        "greek",
        "20-7e,a0,a3,a6-a9,ab-ad,b0-b3,b7,bb,bd,37a,384-386,388-38a,38c,38e-3a1,3a3-3ce,2015,2018-2019,20ac,20af",
    ),
    (
        "cyrillic",
        "20-7e,a0,a7,ad,401-40c,40e-44f,451-45c,45e-45f,2116",
    ),
    ("box", "2500-257f"),
    ("blocks", "2580-259f"),
    ("braille", "2800-28ff"),
    (
        "cp437",
        "20-7e,a0-a3,a5,a7,aa-ac,b0-b2,b5-b7,ba-bd,bf,c4-c7,c9,d1,d6,dc,df-e2,e4-ef,f1-f4,f6-f7,f9-fc,ff,192,393,398,\
         3a3,3a6,3a9,3b1,3b4-3b5,3c0,3c3-3c4,3c6,2022,203c,207f,20a7,2190-2195,21a8,2219-221a,221e-221f,2229,2248,2261,\
         2264-2265,2302,2310,2320-2321,2500,2502,250c,2510,2514,2518,251c,2524,252c,2534,253c,2550-256c,2580,2584,2588,\
         258c,2590-2593,25a0,25ac,25b2,25ba,25bc,25c4,25cb,25d8-25d9,263a-263c,2640,2642,2660,2663,2665-2666,266a-266b",
    ),
    (
        "koi8-r",
        "20-7e,a0,a9,b0,b2,b7,f7,401,410-44f,451,2219-221a,2248,2264-2265,2320-2321,2500,2502,250c,2510,2514,2518,251c,\
         2524,252c,2534,253c,2550-256c,2580,2584,2588,258c,2590-2593,25a0",
    ),
    ("latin-extended-a", "100-17f"),
    ("greek-block", "370-3ff"),
    ("cyrillic-block", "400-4ff"),
    ("hebrew", "590-5ff"),
    ("arabic", "600-6ff"),
    ("thai", "e00-e7f"),
    ("punctuation", "2000-206f"),
    ("currency", "20a0-20cf"),
    ("arrows", "2190-21ff"),
    ("math", "2200-22ff"),
    ("shapes", "25a0-25ff"),
    ("kana", "3040-30ff"),
    ("han", "4e00-9fff"),
    ("hangul", "ac00-d7a3"),
    ("powerline", "e0a0-e0a2,e0b0-e0b3"),
];

/// Other names of sets.
const OTHERS: [(&str, &str); 16] = [
    ("us-ascii", "ascii"),
    ("latin1", "latin-1"),
    ("iso8859-1", "latin-1"),
    ("iso-8859-1", "latin-1"),
    ("latin9", "latin-9"),
    ("iso8859-15", "latin-9"),
    ("iso-8859-15", "latin-9"),
    ("iso8859-7", "greek"),
    ("iso-8859-7", "greek"),
    ("iso8859-5", "cyrillic"),
    ("iso-8859-5", "cyrillic"),
    ("boxes", "box"),
    ("ibm437", "cp437"),
    ("koi8r", "koi8-r"),
    ("latin-a", "latin-extended-a"),
    ("cjk", "han"),
];

/// The list of a set of this name, in letters of either case.
#[tactic(auto, unfolding(crate::specs::Sets::list_of))]
pub fn list_of(alloc: Global, name: &str) -> Result<Option<&'static str>, AllocError>
    ensures { IfOk result (λ list. text_in list ≡ list_of name.now) }
{
    let lower = name.to_ascii_lowercase(alloc)?;
    Ok(named(first_name(lower.as_str())))
}

/// The names of the sets.
#[tactic(auto, unfolding(crate::specs::Sets::sets))]
pub fn set_names(alloc: Global) -> Result<Vec<&'static str>, AllocError>
    ensures { IfOk result (λ names. texts names.items ≡ map (λ row. row.0) sets) }
{
    first_column(alloc, &SETS)
}

/// The first column of a table.
fn first_column(
    alloc: Global,
    rows: &[(&'static str, &'static str)],
) -> Result<Vec<&'static str>, AllocError>
    ensures { IfOk result (λ words. texts words.items ≡ map (λ row. row.0) (rows_of rows.now)) }
{
    let mut words = Vec::new(alloc);
    // The words of the rows so far.
    'rows: for row in rows {
        words.push(row.0)?;
    }
    Ok(words)
}

/// The list of the set of this name.
#[tactic(auto, unfolding(crate::specs::Sets::sets))]
fn named(name: &str) -> Option<&'static str>
    ensures { text_in result ≡ value_of sets name.now }
{
    value_of(&SETS, name)
}

/// The first name of a set that has several; any other name as it is.
#[tactic(auto, unfolding(crate::specs::Sets::other_names))]
fn first_name<'a>(name: &'a str) -> &'a str
    ensures { result.now ≡ first_name name.entry.now }
{
    match value_of(&OTHERS, name) {
        Some(first) => first,
        None => name,
    }
}

/// The value of a key in a table of two columns.
pub fn value_of(table: &[(&'static str, &'static str)], key: &str) -> Option<&'static str>
    ensures { text_in result ≡ value_of (rows_of table.now) key.now }
{
    // No row so far has the key.
    'rows: for row in table {
        if row.0 == key {
            return Some(row.1);
        }
    }
    None
}

/// Replaces the names of sets in a list by the lists of their characters. Anything else in it stays as it is.
pub fn listed(alloc: Global, names: &str) -> Result<String, AllocError>
    ensures { IfOk result (λ list. string_bytes list ≡ listed names.now) }
{
    let parts = parts_of(alloc, names, ',')?;
    let mut lists = Vec::new(alloc);
    // The parts so far were replaced.
    'parts: for part in &parts {
        lists.push(list_of(alloc, part)?.unwrap_or(*part))?;
    }
    joined(alloc, &lists)
}

/// The list that the values of `--set` and `--chars` among words stand for; none if `--set` is not there.
pub fn lists_in(alloc: Global, words: &[&str]) -> Result<Option<String>, AllocError>
    ensures { IfOk result (λ list. option_map string_bytes list ≡ lists_in (texts words.now)) }
{
    if !has(words, "--set") && value_in(words, "--set").is_none() {
        return Ok(None);
    }
    let values = list_values(alloc, words)?;
    let names = joined(alloc, &values)?;
    Ok(Some(listed(alloc, names.as_str())?))
}

/// Texts with commas between them.
fn joined(alloc: Global, parts: &[&str]) -> Result<String, AllocError>
    ensures { IfOk result (λ list. string_bytes list ≡ join_by (λ part. part) (codes ",") (texts parts.now)) }
{
    parts.join(alloc, ",")
}

/// What is between the marks of a text, each of one ASCII character.
pub fn parts_of<'a>(alloc: Global, text: &'a str, mark: char) -> Result<Vec<&'a str>, AllocError>
    requires { mark < 128 }
    ensures { IfOk result (λ parts. texts parts.items ≡ slice_split (λ b. b == mark) text.entry.now) }
{
    text.split(mark).collect(alloc)
}
