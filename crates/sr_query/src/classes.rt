ghost use Rattle.std.specs.Prelude.{◌≡◌};
ghost use Rattle.sr_ast.specs.Classes.{is_number};
ghost use Rattle.sr_query.specs.Checks.{gives_number};

use sr_ast::Class;

/// Whether the class may stand where a number is needed.
pub(crate) fn gives_number(class: Option<Class>) -> bool
    ensures { result ≡ gives_number class }
{
    match class {
        Some(Class::Number) => true,
        Some(Class::Any) => true,
        Some(Class::Truth) => false,
        Some(Class::Text) => false,
        Some(Class::Date) => false,
        None => false,
    }
}
