ghost use Rattle.std.specs.Prelude.{◌≡◌, ℕ, List, ◌∷◌, ◌++◌, true, false, None};
ghost use Rattle.qd_words.specs.Words.{Argument, is_option, IsName, arguments};
ghost use Rattle.qd_words.specs.Words.Argument.{Named, Positional};
ghost use Rattle.qd_words.specs.Asking.{asked_by};
ghost use Rattle.qd_words.specs.NetAsking.{net_asked_by};
ghost use Rattle.qd_words.specs.declared.ask.Command.{Command as AnyCommand};
ghost use Rattle.qd_words.specs.declared.net_ask.NetCommand.{NetCommand as AnyNetCommand};

/// `--name=value` is the same as `--name value`.
pub fn value_behind_equals()
    ensures { (name value : List ℕ) (words : List (List ℕ)) → IsName name → is_option value ≡ false → arguments ((name ++ 61 ∷ value) ∷ words) ≡ arguments (name ∷ value ∷ words) }
{}

/// An option may stand before or behind a positional word.
pub fn any_order()
    ensures { (command : AnyCommand) (first last : List Argument) (name value word : List ℕ) → asked_by command (first ++ Named name value ∷ Positional word ∷ last) ≡ asked_by command (first ++ Positional word ∷ Named name value ∷ last) }
{}

/// The same of the commands that speak with a server.
pub fn any_order_of_a_server()
    ensures { (command : AnyNetCommand) (first last : List Argument) (name value word : List ℕ) → net_asked_by command (first ++ Named name value ∷ Positional word ∷ last) ≡ net_asked_by command (first ++ Positional word ∷ Named name value ∷ last) }
{}
