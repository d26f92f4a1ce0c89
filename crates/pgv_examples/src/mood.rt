//! An enum, `create type mood as enum ('sad', 'ok', 'happy')`: written and read as a [`PgEnum<Mood>`](pgv::PgEnum).

use pgv::Labelled;

/// A value of the enum `mood`.
#[derive(Clone, Copy, Debug, PartialEq, Eq)]
pub enum Mood {
    /// `sad`.
    Sad,
    /// `ok`.
    Fine,
    /// `happy`.
    Happy,
}

impl Labelled for Mood {
    ghost use Rattle.std.specs.Prelude.{codes, [], ◌∷◌, refl};
    ghost use Rattle.pgv_examples.specs.declared.mood.Mood.TheVariants.{Sad, Fine, Happy};

    ghost name = { codes "mood" };

    ghost labels = { (codes "sad", Sad) ∷ (codes "ok", Fine) ∷ (codes "happy", Happy) ∷ [] };

    ghost label_of = { elim [ Sad ↦ codes "sad" | Fine ↦ codes "ok" | Happy ↦ codes "happy" ] };

    ghost again = { elim [ Sad ↦ refl | Fine ↦ refl | Happy ↦ refl ] };

    ghost utf8 = { refl };

    fn name() -> &'static str {
        "mood"
    }

    fn label(&self) -> &'static str {
        match self {
            Mood::Sad => "sad",
            Mood::Fine => "ok",
            Mood::Happy => "happy",
        }
    }

    fn from_label(label: &str) -> Option<Mood> {
        match label {
            "sad" => Some(Mood::Sad),
            "ok" => Some(Mood::Fine),
            "happy" => Some(Mood::Happy),
            _ => None,
        }
    }
}
