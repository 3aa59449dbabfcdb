// The words for formats and actions. A new format or action is a row here, in both directions.

ghost use Rattle.std.specs.Prelude.{◌≡◌, IfSome, None, codes};
ghost use Rattle.rdf_stream.specs.declared.form.Form.{Form};
ghost use Rattle.rdf_command.specs.declared.task.Action.{Action};
ghost use Rattle.rdf_command.specs.Words.{EndsIn, IsFormBy, IsFormless, action_name, form_name};
ghost use Rattle.rdf_command.specs.WordSteps.{IsFormatWord};

use crate::task::Action;
use rdf_stream::Form;

/// The words for formats: their names, and `name` for the one that a document's name ends in.
pub static FORMATS: [&str; 5] = ["nt", "nq", "ttl", "trig", "name"];

/// The format of a document of this name, by a word for formats. There is none where the name is to end in one and
/// does not.
pub fn form_by(word: &str, name: &str) -> Option<Form>
    requires { IsFormatWord word.now }
    ensures form { IfSome result (IsFormBy word.now name.now) }
    ensures none { result ≡ None → IsFormless word.now name.now }
{
    if word == "name" {
        form_at_end(name.as_bytes())
    } else {
        Some(form_of(word))
    }
}

// The format that a name ends in.
fn form_at_end(name: &[u8]) -> Option<Form>
    ensures form { IfSome result (EndsIn name.now) }
    ensures none { result ≡ None → (f : Form) → EndsIn name.now f → ⊥ }
{
    if name.ends_with(b".nt") {
        Some(Form::NTriples)
    } else if name.ends_with(b".nq") {
        Some(Form::NQuads)
    } else if name.ends_with(b".ttl") {
        Some(Form::Turtle)
    } else if name.ends_with(b".trig") {
        Some(Form::TriG)
    } else {
        None
    }
}

/// The format of a name.
pub fn form_of(name: &str) -> Form
    requires { (f : Form) × (form_name f ≡ name.now) }
    ensures { form_name result ≡ name.now }
{
    match name {
        "nt" => Form::NTriples,
        "nq" => Form::NQuads,
        "ttl" => Form::Turtle,
        "trig" => Form::TriG,
        _ => unreachable!(),
    }
}

/// The action of a subcommand.
pub fn action_of(name: &str) -> Action
    requires { (a : Action) × (action_name a ≡ name.now) }
    ensures { action_name result ≡ name.now }
{
    match name {
        "check" => Action::Check,
        "show" => Action::Show,
        "convert" => Action::Convert,
        _ => unreachable!(),
    }
}
