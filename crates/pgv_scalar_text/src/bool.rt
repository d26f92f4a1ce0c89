//! Texts of truth values.

ghost use Rattle.std.specs.Prelude.{◌≡◌};
ghost use Rattle.pgv_scalar_text.specs.ScalarText.{bool_value};

/// The truth value of a text: `t` or `f`, as PostgreSQL writes them.
pub fn bool_of(text: &str) -> Option<bool>
    ensures { result ≡ bool_value text.now }
{
    match text {
        "t" => Some(true),
        "f" => Some(false),
        _ => None,
    }
}
