//! What the words after the program's name ask for.

ghost use Rattle.std.specs.Prelude.{◌≡◌, ◌≤◌, length, map, string_bytes, option_map, Ok, IfOk, nat_eq, if◌then◌else◌};
ghost use Rattle.fixed_num.specs.Decimal.{read_text};
ghost use Rattle.style_program.specs.Words.{asked, asked_alone, asked_command, asked_lint, asked_of_one, asked_of_more};
ghost use Rattle.style_program.specs.Words.{asked_styles, asked_with, asked_with_script, features_named, shown_words};
ghost use Rattle.style_program.specs.Words.{source_and_tile, tiles_named, are_allowed, count_of};
ghost use Rattle.style_program.specs.WordsView.{answer_asked, asked_by, eval_words, tile_word};

use crate::value_command::zero;
use fixed_num::{Fixed, read_decimal};
use lint_runs::LintForm;
use std::alloc::{AllocError, Global};

/// A word `SOURCE=TILE`: a source, and the name of the file of a tile of it.
#[derive(Clone, Copy, Debug)]
pub struct TileWord<'a> {
    pub source: &'a str,
    pub tile: &'a str,
}

/// What `eval` is given: the name of the file of a style, a zoom, and tiles.
#[derive(Debug, Drop)]
pub struct EvalRequest<'a> {
    pub style: &'a str,
    pub zoom: Fixed,
    pub tiles: Vec<TileWord<'a>>,
}

/// What answers a script.
#[derive(Clone, Copy, Debug, PartialEq, Eq)]
pub enum ScriptKind {
    /// `replay`: a style that is shown alone.
    Replay,
    /// `desk`: one that is shown in several views.
    Desk,
}

/// What `replay` or `desk` is given: the name of the file of a script, and what `eval` is given.
#[derive(Debug, Drop)]
pub struct ScriptRequest<'a> {
    pub kind: ScriptKind,
    pub script: &'a str,
    pub shown: EvalRequest<'a>,
}

/// What the words ask for.
#[derive(Debug, Drop)]
pub enum Request<'a> {
    /// One answer, once all is read, which evaluates no cell.
    Answer(AnswerRequest<'a>),
    /// One answer, which lists what a style shows.
    Listing(ListingRequest<'a>),
    /// The answers to a script: what a style shows while it is edited.
    Script(ScriptRequest<'a>),
}

/// What is asked for where one answer is given, which evaluates no cell.
#[derive(Debug, Drop)]
pub enum AnswerRequest<'a> {
    /// The value of this expression.
    Value(&'a str),
    /// What a style breaks.
    Validate(&'a str),
    /// What each of these styles breaks, in lines of a form.
    Lint(LintForm, &'a [String]),
    /// A style in expressions.
    Migrate(&'a str),
    /// A style with the same meaning and less in it.
    Simplify(&'a str),
    /// What a tile holds.
    Tile(&'a str),
    Help,
    Version,
    /// Nothing that the program knows.
    Wrong,
}

/// What is asked for where one answer lists what a style shows.
#[derive(Debug, Drop)]
pub enum ListingRequest<'a> {
    /// What a style shows.
    Eval(EvalRequest<'a>),
    /// How much it shows of so many features that are made.
    Generate(u32),
}

/// What the words after the program's name ask for.
pub fn request_of(alloc: Global, words: &[String]) -> Result<Request<'_>, AllocError>
    ensures { IfOk result (λ request. asked_by request ≡ asked (map string_bytes words.now)) }
{
    match words {
        [] => Ok(Request::Answer(AnswerRequest::Wrong)),
        [word] => Ok(Request::Answer(request_alone(word.as_str()))),
        [command, words @ ..] => request_of_command(alloc, command.as_str(), words),
    }
}

fn request_of_command<'a>(
    alloc: Global,
    command: &str,
    words: &'a [String],
) -> Result<Request<'a>, AllocError>
    ensures { IfOk result (λ request. asked_by request ≡ asked_command command.now (map string_bytes words.now)) }
{
    if command == "lint" {
        return Ok(Request::Answer(request_lint(words)));
    }
    request_with(alloc, command, words)
}

fn request_lint<'a>(words: &'a [String]) -> AnswerRequest<'a>
    ensures { answer_asked result ≡ asked_lint (map string_bytes words.now) }
{
    match words {
        [] => AnswerRequest::Wrong,
        [word, styles @ ..] => {
            if word.as_str() == "--github" {
                request_styles(LintForm::Annotations, styles)
            } else {
                request_styles(LintForm::Plain, words)
            }
        }
    }
}

const MOST_STYLES: usize = 64;

fn request_styles<'a>(form: LintForm, styles: &'a [String]) -> AnswerRequest<'a>
    ensures { answer_asked result ≡ asked_styles form (map string_bytes styles.now) }
{
    if styles.is_empty() || styles.len() > MOST_STYLES {
        return AnswerRequest::Wrong;
    }
    AnswerRequest::Lint(form, styles)
}

fn request_with<'a>(
    alloc: Global,
    command: &str,
    words: &'a [String],
) -> Result<Request<'a>, AllocError>
    ensures { IfOk result (λ request. asked_by request ≡ asked_with command.now (map string_bytes words.now)) }
{
    match words {
        [] => Ok(Request::Answer(AnswerRequest::Wrong)),
        [word] => Ok(request_of_one(command, word.as_str())),
        [style, word, words @ ..] => {
            request_of_more(alloc, command, style.as_str(), word.as_str(), words)
        }
    }
}

fn request_alone<'a>(word: &str) -> AnswerRequest<'a>
    ensures { answer_asked result ≡ asked_alone word.now }
{
    match word {
        "--help" => AnswerRequest::Help,
        "--version" => AnswerRequest::Version,
        _ => AnswerRequest::Wrong,
    }
}

fn request_of_one<'a>(command: &str, word: &'a str) -> Request<'a>
    ensures { asked_by result ≡ asked_of_one command.now word.now }
{
    match command {
        "value" => Request::Answer(AnswerRequest::Value(word)),
        "validate" => Request::Answer(AnswerRequest::Validate(word)),
        "migrate" => Request::Answer(AnswerRequest::Migrate(word)),
        "simplify" => Request::Answer(AnswerRequest::Simplify(word)),
        "tile" => Request::Answer(AnswerRequest::Tile(word)),
        "generate" => match features_named(word) {
            Some(features) => Request::Listing(ListingRequest::Generate(features)),
            None => Request::Answer(AnswerRequest::Wrong),
        },
        _ => Request::Answer(AnswerRequest::Wrong),
    }
}

const MOST_FEATURES: u32 = 100_000;

// The number of features that a word of at most six digits says, where it is one from 1 to 100,000.
fn features_named(word: &str) -> Option<u32>
    ensures { result ≡ features_named word.now }
{
    let mut features: u32 = 0;
    for byte in word.as_bytes() {
        if *byte < b'0' || *byte > b'9' {
            return None;
        }
        features = 10 * features + (*byte - b'0') as u32;
        if features > MOST_FEATURES {
            return None;
        }
    }
    if word.len() > 6 || features == 0 {
        return None;
    }
    Some(features)
}

fn request_of_more<'a>(
    alloc: Global,
    command: &str,
    style: &'a str,
    word: &'a str,
    words: &'a [String],
) -> Result<Request<'a>, AllocError>
    ensures { IfOk result (λ request.
        asked_by request ≡ asked_of_more command.now style.now word.now (map string_bytes words.now)) }
{
    match command {
        "eval" => match shown_request(alloc, style, word, words)? {
            Some(request) => Ok(Request::Listing(ListingRequest::Eval(request))),
            None => Ok(Request::Answer(AnswerRequest::Wrong)),
        },
        "desk" => match shown_at(alloc, style, zero(), words)? {
            Some(shown) => Ok(Request::Script(ScriptRequest {
                kind: ScriptKind::Desk,
                script: word,
                shown,
            })),
            None => Ok(Request::Answer(AnswerRequest::Wrong)),
        },
        "replay" => request_replay(alloc, style, word, words),
        _ => Ok(Request::Answer(AnswerRequest::Wrong)),
    }
}

fn request_replay<'a>(
    alloc: Global,
    style: &'a str,
    script: &'a str,
    words: &'a [String],
) -> Result<Request<'a>, AllocError>
    ensures { IfOk result (λ request.
        asked_by request ≡ asked_with_script style.now script.now (map string_bytes words.now)) }
{
    let [zoom, tiles @ ..] = words else {
        return Ok(Request::Answer(AnswerRequest::Wrong));
    };
    match shown_request(alloc, style, zoom.as_str(), tiles)? {
        Some(shown) => Ok(Request::Script(ScriptRequest {
            kind: ScriptKind::Replay,
            script,
            shown,
        })),
        None => Ok(Request::Answer(AnswerRequest::Wrong)),
    }
}

fn shown_request<'a>(
    alloc: Global,
    style: &'a str,
    zoom: &str,
    words: &'a [String],
) -> Result<Option<EvalRequest<'a>>, AllocError>
    ensures { IfOk result (λ request. option_map eval_words request
        ≡ shown_words style.now (read_text zoom.now) (map string_bytes words.now)) }
{
    match read_decimal(zoom.as_bytes()) {
        Ok(zoom) => shown_at(alloc, style, zoom, words),
        Err(_) => Ok(None),
    }
}

fn shown_at<'a>(
    alloc: Global,
    style: &'a str,
    zoom: Fixed,
    words: &'a [String],
) -> Result<Option<EvalRequest<'a>>, AllocError>
    ensures { IfOk result (λ request. option_map eval_words request
        ≡ shown_words style.now (Ok zoom) (map string_bytes words.now)) }
{
    match tiles_named(alloc, words)? {
        Some(tiles) if are_allowed(tiles.as_slice()) => Ok(Some(EvalRequest {
            style,
            zoom,
            tiles,
        })),
        _ => Ok(None),
    }
}

// The tiles that words name, or nothing where a word has another form.
fn tiles_named(alloc: Global, words: &[String]) -> Result<Option<Vec<TileWord<'_>>>, AllocError>
    ensures { IfOk result (λ tiles. option_map (λ named. map tile_word named.items) tiles
        ≡ tiles_named (map string_bytes words.now)) }
{
    let mut tiles = Vec::new(alloc);
    for word in words {
        match source_and_tile(word.as_str()) {
            Some((source, tile)) => tiles.push(TileWord { source, tile })?,
            None => return Ok(None),
        }
    }
    Ok(Some(tiles))
}

const MOST_SOURCES: usize = 16;

const MOST_TILES: usize = 64;

// It ends at the first tile that is one too many, so no more than 1,024 are compared with each other.
fn are_allowed(tiles: &[TileWord<'_>]) -> bool
    ensures { result ≡ are_allowed (map tile_word tiles.now) }
{
    let mut sources: usize = 0;
    for i in 0..tiles.len() {
        let before = count_of(tiles[i].source, &tiles[..i]);
        sources += new_sources(before);
        if sources > MOST_SOURCES {
            return false;
        }
        if before >= MOST_TILES {
            return false;
        }
    }
    true
}

// A tile is of a new source where there is none of its source before it.
fn new_sources(before: usize) -> usize
    ensures { result ≡ (if nat_eq before 0 then 1 else 0) }
{
    if before == 0 { 1 } else { 0 }
}

/// How many of the tiles are of a source.
pub(crate) fn count_of(source: &str, tiles: &[TileWord<'_>]) -> usize
    ensures count { result ≡ count_of source.now (map tile_word tiles.now) }
    ensures few { result ≤ length tiles.now }
{
    let mut count: usize = 0;
    for tile in tiles {
        if tile.source == source {
            count += 1;
        }
    }
    count
}

// `SOURCE=TILE`, cut at its first `=`, where neither part is empty.
fn source_and_tile(word: &str) -> Option<(&str, &str)>
    ensures { option_map (λ parts. (parts.0.now, parts.1.now)) result ≡ source_and_tile word.now }
{
    let Some((source, tile)) = word.split_once('=') else {
        return None;
    };
    if source.is_empty() {
        return None;
    }
    if tile.is_empty() {
        return None;
    }
    Some((source, tile))
}
