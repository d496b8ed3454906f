//! Texts of records with their items, and texts with their records.
use mol_finish::{Format, TextFault};
use molfile_read::MolfileFault;
use sd_read::{is_record_end, item, read_records};
use std::alloc::{AllocError, Global};
use std::sync::Arc;
use std::test::Fail;
use store_core::Record;

/// The text after `M  END`, a name, and the data of the item, if there is one.
type Case = (&'static str, &'static str, Option<&'static str>);

#[rattlefmt::skip]
const ITEMS: &[Case] = &[
    ("> <NAME>\nacetate\n\n", "NAME", Some("acetate\n")),
    ("> <NAME>\nacetate\n\n", "NAM", None),
    (">  <NAME> (1)\nacetate\n\n>  <CAS> (1)\n71-50-1\n\n", "CAS", Some("71-50-1\n")),
    ("> 25 <MW>\n59.04\n\n", "MW", Some("59.04\n")),
    ("> DT12 <Melting Point> (MP)\n  16.6\n\n", "Melting Point", Some("  16.6\n")),
    ("> <Melting Point>\n16.6\n\n", "MeltingPoint", None),
    ("><NAME>\nacetate\n\n", "NAME", Some("acetate\n")),
    ("> <FIRST> <SECOND>\nx\n\n", "FIRST", Some("x\n")),
    ("> <FIRST> <SECOND>\nx\n\n", "SECOND", None),
    ("> <A<B>\nx\n\n", "A<B", Some("x\n")),
    ("> <>\nx\n\n", "", Some("x\n")),
    ("> <NOTE>\none\ntwo\n three\n\nfour\n", "NOTE", Some("one\ntwo\n three\n")),
    ("> <NOTE>\none\n \ntwo\n\n", "NOTE", Some("one\n \ntwo\n")),
    ("> <A>\nx\n> <B>\ny\n\n> <C>\nz\n\n", "A", Some("x\n> <B>\ny\n")),
    ("> <A>\nx\n> <B>\ny\n\n> <C>\nz\n\n", "B", None),
    ("> <A>\nx\n> <B>\ny\n\n> <C>\nz\n\n", "C", Some("z\n")),
    ("> <A>\nfirst\n\n> <A>\nsecond\n\n", "A", Some("first\n")),
    ("> <A>\n\n> <B>\nx\n\n", "A", Some("")),
    ("> <A>\n\n> <B>\nx\n\n", "B", Some("x\n")),
    ("> <A>\nx\n\n\n\n\n> <B>\ny\n\n\n\n", "B", Some("y\n")),
    ("> <A>\nx", "A", Some("x")),
    ("> <A>\n", "A", Some("")),
    ("> <A>", "A", Some("")),
    ("> <A\nx\n\n", "A", None),
    ("> A>\nx\n\n", "A", None),
    ("> DT12\nx\n\n> <A>\ny\n\n", "A", Some("y\n")),
    (" > <A>\nx\n\n", "A", None),
    ("stray\n> <A>\nx\n\n", "A", Some("x\n")),
    ("> <A>\nM  END\n\n> <B>\nx\n\n", "A", Some("M  END\n")),
    ("> <A>\r\nx\r\n\r\n> <B>\ny\n\n", "A", Some("x\r\n\r\n> <B>\ny\n")),
    ("", "A", None),
];

#[rattlefmt::skip]
const WHOLE: &[Case] = &[
    ("", "A", None),
    ("> <A>\nx\n\n", "A", None),
    ("> <A>\nx\n\nM  END\n", "A", None),
    ("> <A>\nx\n\nM  END\n> <A>\ny\n\n", "A", Some("y\n")),
    (" M  END\n> <A>\nx\n\n", "A", None),
    ("M  END of the atoms\n> <A>\nx\n\n", "A", Some("x\n")),
    ("M  END\r\n> <A>\nx\n\n", "A", Some("x\n")),
    ("M  END", "A", None),
];

const ACETATE: &str = "acetate
  by hand

  4  3  0  0  0  0  0  0  0  0999 V2000
    0.0000    0.0000    0.0000 C   0  0  0  0  0  0
    1.5000    0.0000    0.0000 C   0  0  0  0  0  0
    2.2000    1.2000    0.0000 O   0  5  0  0  0  0
    2.2000   -1.2000    0.0000 O   0  0  0  0  0  0
  1  2  1  0
  2  3  2  0
  2  4  1  0
M  CHG  1   4  -1
M  END
> <NAME>
acetate

";

// A molfile of one atom, without the line that ends it.
const OPEN: &str = "

any
  1  0  0  0  0  0  0  0  0  0999 V2000
    0.0000    0.0000    0.0000 O   0  0  0  0  0  0
";

const CUT: TextFault = TextFault::Molfile(MolfileFault::Cut);

const HEADER: TextFault = TextFault::Molfile(MolfileFault::Header);

const LIMIT: TextFault = TextFault::Molfile(MolfileFault::Limit);

const STRAY: TextFault = TextFault::Molfile(MolfileFault::Columns(6));

/// The two parts of a text, and the atoms of its structure or why it has no structure.
type Made = (&'static str, &'static str, Result<usize, TextFault>);

#[rattlefmt::skip]
const TEXTS: &[Made] = &[
    (ACETATE, "", Ok(4)),
    (OPEN, "M  END\n", Ok(1)),
    (OPEN, "M  END", Ok(1)),
    (OPEN, "M  END\r\n", Ok(1)),
    (OPEN, "M  END\n\n\n\n", Ok(1)),
    (OPEN, "M  END\n> <A>\nx", Ok(1)),
    (OPEN, "", Err(CUT)),
    (OPEN, "> <A>\nx\n\n", Err(STRAY)),
    (OPEN, "\nM  END\n", Err(STRAY)),
    ("acetate\n  by hand\n", "", Err(CUT)),
    ("", "", Err(CUT)),
    ("\n\n\n", "  1  0  0  0  0  0  0  0  0  0999 V3000\n", Err(HEADER)),
];

/// The length to which blank lines at its end extend a text, and the result.
const LONG: &[(usize, Result<usize, TextFault>)] = &[
    (262_144, Ok(1)),
    (262_145, Err(LIMIT)),
    (262_144, Ok(1)),
];

#[test]
fn a_line_of_four_dollars_ends_a_record(rt: HostRuntime) {
    for (line, ends) in [
        ("$$$$", true),
        ("$$$$ ", false),
        ("$$$$\r", false),
        ("$$$$$", false),
        ("$$$", false),
        ("", false),
    ] {
        assert_eq!(rt; is_record_end(line.as_bytes()), ends, "{line}");
    }
}

#[test]
fn items_behind_the_end_of_the_molfile(rt: HostRuntime) -> Result<(), Fail> {
    for (behind, name, data) in ITEMS {
        let text = format!(in rt.alloc(); "a\n\n\n  0  0\nM  END\n{behind}")?;
        assert_eq!(rt; data_of(text.as_str(), name), *data, "{behind}");
    }
    for (text, name, data) in WHOLE {
        assert_eq!(rt; data_of(text, name), *data, "{text}");
    }
    Ok(())
}

// The texts of the table, ten times.
fn texts_of(alloc: Global) -> Result<Vec<Vec<u8>>, AllocError> {
    let mut texts = Vec::new(alloc);
    for _ in 0..10 {
        for (front, behind, _) in TEXTS {
            texts.push(joined(alloc, front, behind.as_bytes())?)?;
        }
    }
    Ok(texts)
}

#[test]
fn records_under_identifiers_one_after_another(rt: HostRuntime) -> Result<(), Fail> {
    let texts = texts_of(rt.alloc())?;
    assert!(rt; texts.len() == 10 * TEXTS.len() && texts.len() <= 1000);
    let answers = read_records(&rt, rt.alloc(), 7, texts.as_slice())?;
    assert_eq!(rt; answers.len(), texts.len());
    for (place, answer) in answers.iter().enumerate() {
        let (front, behind, made) = TEXTS[place % TEXTS.len()];
        assert_eq!(rt; atoms_of(answer), made, "{front}{behind}");
        if let Ok(record) = answer {
            let (id, text) = (record.id() as usize, record.text());
            assert!(rt;
                id == 7 + place && is_joined(text, front, behind),
                "{front}{behind}"
            );
            assert_eq!(rt; record.format(), Format::Molfile);
        }
    }
    Ok(())
}

// A molfile of `length` bytes, with blank lines at its end.
fn long_text(alloc: Global, length: usize) -> Result<Vec<u8>, AllocError> {
    let mut text = joined(alloc, OPEN, b"M  END\n")?;
    let blank = vec![in alloc; b'\n'; length.saturating_sub(text.len())]?;
    text.extend_from_slice(blank.as_slice())?;
    Ok(text)
}

#[test]
fn a_text_over_the_limit_leaves_the_others(rt: HostRuntime) -> Result<(), Fail> {
    let mut texts = Vec::new(rt.alloc());
    for (length, _) in LONG {
        texts.push(long_text(rt.alloc(), *length)?)?;
    }
    assert!(rt; texts.len() <= 3);
    let answers = read_records(&rt, rt.alloc(), 999_999_997, texts.as_slice())?;
    assert_eq!(rt; answers.len(), 3);
    for (place, answer) in answers.iter().enumerate() {
        let (length, made) = LONG[place % LONG.len()];
        assert_eq!(rt; atoms_of(answer), made, "{length}");
    }
    Ok(())
}

// The data of an item, as text.
fn data_of<'a>(text: &'a str, name: &str) -> Option<&'a str> {
    let (from, to) = item(text.as_bytes(), name.as_bytes())?;
    text.get(from..to)
}

// A text of two parts.
fn joined(alloc: Global, front: &str, behind: &[u8]) -> Result<Vec<u8>, AllocError> {
    let mut text = Vec::from_slice(alloc, front.as_bytes())?;
    text.extend_from_slice(behind)?;
    Ok(text)
}

// True if a text is made of two parts.
fn is_joined(text: &[u8], front: &str, behind: &str) -> bool {
    text.starts_with(front.as_bytes()) && text.get(front.len()..) == Some(behind.as_bytes())
}

// The atoms of a record, or why there is no record.
fn atoms_of(answer: &Result<Arc<Record>, TextFault>) -> Result<usize, TextFault> {
    match answer {
        Ok(record) => Ok(record.mol().atoms().len()),
        Err(fault) => Err(*fault),
    }
}
