// Users are read.

ghost use Rattle.std.specs.Prelude.{◌<◌, ◌≤◌, ◌^◌, [], ◌∷◌, length};
ghost use Rattle.owned_values.specs.Gives.{Gives};
ghost use Rattle.text_lines.specs.Lines.{with_lines, number_said};
ghost use Rattle.text_lines.specs.Views.{said_view};
ghost use Rattle.user_store.specs.Store.{users, with_text, fault_of};

use crate::fault::UserFault;
use crate::line::line_of;
use crate::users::Users;
use std::alloc::Global;
use text_lines::{Lines, Said};

/// The most bytes that a file of users may have.
pub const MAX_USERS_LENGTH: usize = 4_194_304;

/// The users with what is said next.
///
/// # Errors
///
/// `Line`, exactly where it is no text, is neither a user nor an attribute of one, has the name of a user before it, or
/// is one user too many.
fn users_with(alloc: Global, users: Users, said: Said<'_>) -> Result<Users, UserFault>
    requires { number_said (said_view said) < 2 ^ 32 }
    ensures { Gives (λ users. users) fault_of result (with_lines with_text users (said_view said.entry ∷ [])) }
{
    match said {
        Said::Line { number, text } => {
            let Some(line) = line_of(alloc, text)? else {
                return Err(UserFault::Line(number as u32));
            };
            match users.with_line(alloc, line)? {
                Some(users) => Ok(users),
                None => Err(UserFault::Line(number as u32)),
            }
        }
        Said::NoText { number } => Err(UserFault::Line(number as u32)),
    }
}

/// The users of a text. Time goes with n log n of the text.
///
/// # Errors
///
/// `Line` with the number of the first line that is no text, is neither a user nor an attribute of a user before it, has
/// the name of a user before it, or is one user more than [`MAX_USERS`](crate::MAX_USERS). `NoMemory` may come in place
/// of any answer.
pub fn read_users(alloc: Global, text: &[u8]) -> Result<Users, UserFault>
    requires { length text.now ≤ MAX_USERS_LENGTH }
    ensures { Gives (λ users. users) fault_of result (users text.now) }
{
    let mut users = Users::new(alloc);
    let mut lines = Lines::new(text);
    while let Some(said) = lines.next_said() {
        users = users_with(alloc, users, said)?;
    }
    Ok(users)
}
