//! Calls of `lint_style`, which reads bytes by itself.

use lint_texts::{LintForm, lint_style};
use std::alloc::{AllocError, Global};

/// A file, its lines in both forms, and how many of them are errors and warnings.
struct LintRow {
    text: &'static str,
    plain: &'static str,
    annotations: &'static str,
    errors: u64,
    warnings: u64,
}

const ROWS: [LintRow; 5] = [
    LintRow {
        text: "{\"version\":8,\"sources\":{},\"layers\":[]}",
        plain: "",
        annotations: "",
        errors: 0,
        warnings: 0,
    },
    LintRow {
        text: "{\n // none\n}",
        plain: "a:b,c.json:2:2: error: no JSON text: JSON cannot go on so, and has no comments [Syntax]\n",
        annotations: "::error file=a%3Ab%2Cc.json,line=2,col=2::no JSON text: JSON cannot go on so, and has no comments [Syntax]\n",
        errors: 1,
        warnings: 0,
    },
    LintRow {
        text: "{\"version\":7,\n\"sources\":{},\"layers\":[{\"id\":\"é%\",\"type\":\"background\",\"paint\":{\"x\":1}}]}",
        plain: "a:b,c.json:1:2: error: version: must be the number 8, found 7 [V3]\na:b,c.json:2:64: error: layer \"é%\", x: \"x\" is no property of the paint of a layer of type background [V14]\n",
        annotations: "::error file=a%3Ab%2Cc.json,line=1,col=2::version: must be the number 8, found 7 [V3]\n::error file=a%3Ab%2Cc.json,line=2,col=64::layer \"é%25\", x: \"x\" is no property of the paint of a layer of type background [V14]\n",
        errors: 2,
        warnings: 0,
    },
    LintRow {
        text: "{\"version\":8,\"sources\":{\"t\":{\"type\":\"vector\"}},\"layers\":[{\"id\":\"a\",\"type\":\"circle\",\"source\":\"t\",\"source-layer\":\"l\",\n\"paint\":{\"circle-color\":[\"match\",[\"get\",\"k\"],\"a\",\"red\",\"bleu\"]},\n\"filter\":[\"within\",{}]}]}",
        plain: "a:b,c.json:3:1: note: layer \"a\", filter: not evaluated here [outside]\na:b,c.json:2:10: warning: layer \"a\", circle-color: \"bleu\" is no color; a text may be no color: [\"to-color\", X, \"red\"] has a color for that [NotColor]\n",
        annotations: "::notice file=a%3Ab%2Cc.json,line=3,col=1::layer \"a\", filter: not evaluated here [outside]\n::warning file=a%3Ab%2Cc.json,line=2,col=10::layer \"a\", circle-color: \"bleu\" is no color; a text may be no color: [\"to-color\", X, \"red\"] has a color for that [NotColor]\n",
        errors: 0,
        warnings: 1,
    },
    LintRow {
        text: "{\"version\":8,\"sources\":{\"t\":{\"type\":\"vector\"}},\"layers\":[{\"id\":\"a\",\"type\":\"circle\",\"source\":\"t\",\"source-layer\":\"l\",\n\"paint\":{\"circle-radius\":[\"/\",[\"number\",[\"get\",\"k\"]],[\"get\",\"n\"]]}}]}",
        plain: "a:b,c.json:2:10: warning: layer \"a\", circle-radius: the evaluation may fail; a value may have another type, or be missing: [\"number\", X, 0], [\"string\", X, \"\"], [\"boolean\", X, false] or [\"to-color\", X, \"red\"] has a value for that; a divisor may be 0; a number may be past 100000000000000000000 [WrongType DivideByZero Overflow]\n",
        annotations: "::warning file=a%3Ab%2Cc.json,line=2,col=10::layer \"a\", circle-radius: the evaluation may fail; a value may have another type, or be missing: [\"number\", X, 0], [\"string\", X, \"\"], [\"boolean\", X, false] or [\"to-color\", X, \"red\"] has a value for that; a divisor may be 0; a number may be past 100000000000000000000 [WrongType DivideByZero Overflow]\n",
        errors: 0,
        warnings: 1,
    },
];

// Whether the lines of a file in a form are these.
fn are_lines(
    alloc: Global,
    form: LintForm,
    row: &LintRow,
    wanted: &str,
) -> Result<bool, AllocError> {
    let linted = lint_style(alloc, form, "a:b,c.json", row.text.as_bytes())?;
    Ok(
        linted.text.as_slice() == wanted.as_bytes()
            && linted.errors == row.errors
            && linted.warnings == row.warnings,
    )
}

#[test]
fn lines_of_files(rt: HostRuntime) -> Result<(), AllocError> {
    for row in &ROWS {
        assert!(rt;
            are_lines(rt.alloc(), LintForm::Plain, row, row.plain)?,
            "plain, at {}",
            row.text
        );
        assert!(rt;
            are_lines(rt.alloc(), LintForm::Annotations, row, row.annotations)?,
            "annotations, at {}",
            row.text
        );
    }
    Ok(())
}
