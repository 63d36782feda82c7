//! What the words of a command line ask for.
ghost use Rattle.std.specs.Prelude.{◌≡◌, ℕ, [], ◌∷◌, List, map, IfNone, IfSome, string_bytes};
ghost use Rattle.ffc.specs.Words.{HaveNoShape, texts, assemble_words};
ghost use Rattle.ffc.specs.Command.{words_of, form_of_command};

/// What is to be done with the form file `form`.
#[derive(Clone, Copy)]
pub enum Command<'a> {
    /// Print the C text of the kernels of its forms.
    Compile {
        form: &'a str,
    },
    /// Print the entries of the matrix of the form of this name on a mesh.
    Assemble {
        form: &'a str,
        name: &'a str,
        mesh: &'a str,
    },
    /// Print a line for each of its forms.
    Check {
        form: &'a str,
    },
}

impl<'a> Command<'a> {
    /// The name of the form file.
    pub fn form(&self) -> &'a str
        ensures { result.now ≡ form_of_command self.now }
    {
        match self {
            Command::Compile { form } | Command::Assemble { form, .. } | Command::Check { form } =>
                { form }
        }
    }
}

/// The form of `VERB FORM`.
fn read_two<'a>(words: &'a [String], verb: &str) -> Option<&'a str>
    ensures shape { IfSome result (λ form. texts words.now ≡ verb.now ∷ form.now ∷ []) }
    ensures none { IfNone result ((form : List ℕ) → texts words.now ≡ verb.now ∷ form ∷ [] → ⊥) }
{
    let [first, form] = words else {
        return None;
    };
    if first.as_str() == verb {
        Some(form.as_str())
    } else {
        None
    }
}

/// The command of `assemble FORM NAME MESH -`.
fn read_assemble(words: &[String]) -> Option<Command<'_>>
    ensures shape { IfSome result (λ command. texts words.now ≡ words_of command) }
    ensures none { IfNone result ((form name mesh : List ℕ) → texts words.now ≡ assemble_words form name mesh → ⊥) }
{
    match words {
        [verb, form, name, mesh, data] if verb.as_str() == "assemble" && data.as_str() == "-" => {
            Some(Command::Assemble {
                form: form.as_str(),
                name: name.as_str(),
                mesh: mesh.as_str(),
            })
        }
        _ => None,
    }
}

/// The command that the words have the shape of.
pub fn read_command(words: &[String]) -> Option<Command<'_>>
    ensures shape { IfSome result (λ command. texts words.now ≡ words_of command) }
    ensures none { IfNone result (HaveNoShape (texts words.now)) }
{
    if let Some(form) = read_two(words, "compile") {
        return Some(Command::Compile { form });
    }
    if let Some(form) = read_two(words, "check") {
        return Some(Command::Check { form });
    }
    read_assemble(words)
}
