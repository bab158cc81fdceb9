//! Calls of `format_text`.

use format_text::{plain, read_sections};
use std::alloc::{AllocError, Global};

// The contents of the sections that a text is, joined; or nothing where it is the text of none.
fn contents_are(alloc: Global, text: &str, wanted: Option<&str>) -> Result<bool, AllocError> {
    match (read_sections(alloc, text)?, wanted) {
        (Some(sections), Some(wanted)) => Ok(plain(alloc, &sections)?.as_str() == wanted),
        (None, None) => Ok(true),
        _ => Ok(false),
    }
}

const TEXTS: [(&'static str, Option<&'static str>); 15] = [
    (r#"[]"#, Some("")),
    (r#"[["",{}]]"#, Some("")),
    (r#"[["a",{}],["b",{}]]"#, Some("ab")),
    (r#"[["a",{"font-scale":0.8}]]"#, Some("a")),
    (
        r#"[["a",{"font-scale":1,"text-font":["Open Sans Bold"],"text-color":"rgba(255,0,0,1)"}]]"#,
        Some("a"),
    ),
    (r#"[["\"",{"text-font":[]}],["é",{}]]"#, Some("\"é")),
    (r#"[["a",{}]"#, None),
    (r#"[["a", {}]]"#, None),
    (r#"[["a"]]"#, None),
    (r#"[["a",{},1]]"#, None),
    (r#"[["a",{"font-scale":1.0}]]"#, None),
    (r#"[["a",{"text-font":[],"font-scale":1}]]"#, None),
    (r#"[["a",{"text-font":[1]}]]"#, None),
    (r#"[["a",{"text-color":"red"}]]"#, None),
    (r#"[["a",{"font":1}]]"#, None),
];

#[test]
fn texts_and_the_contents_of_their_sections(rt: HostRuntime) -> Result<(), AllocError> {
    for (text, wanted) in TEXTS {
        assert!(rt; contents_are(rt.alloc(), text, wanted)?, "at {text}");
    }
    Ok(())
}
