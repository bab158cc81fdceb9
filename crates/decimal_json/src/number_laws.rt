ghost use Rattle.std.specs.Prelude.{◌≡◌, ℕ, List};
ghost use Rattle.json_tokens.specs.Number.{is_number};
ghost use Rattle.decimal_json.specs.Automaton.{is_accepted};

/// The automaton that walks over the bytes accepts the numbers of the grammar and nothing else.
pub fn automaton_accepts_numbers()
    ensures { (b : List ℕ) → is_number b ≡ is_accepted b }
{}
