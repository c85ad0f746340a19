//! Setting an `Option` once.

ghost use Rattle.rpki.specs.UpdateFirst.{UpdatesFirst};

/// Calls the operation, always, and keeps what it returns if the option was None.
///
/// Returns the operation's error, with the option unchanged.
pub fn update_first<T: Drop, E, F: FnOnce() -> Result<Option<T>, E>>(
    option: &mut Option<T>,
    op: F,
) -> Result<(), E>
    requires { F.IsAlwaysCallable op }
    ensures { UpdatesFirst (F.post op) option.old option.new result }
{
    let given = op()?;
    if option.is_none() {
        *option = given;
    }
    Ok(())
}
