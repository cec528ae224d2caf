// The users, by their names.

ghost use Rattle.std.specs.Prelude.{◌≡◌, ◌≤◌, [], IfOk};
ghost use Rattle.std.specs.Option.{option_copied};
ghost use Rattle.user_store.specs.Line.{HasRounds};
ghost use Rattle.user_store.specs.Store as spec;

use crate::line::UserLine;
use crate::user::User;
use owned_values::{Attribute, NoMemory, Texts};
use std::alloc::Global;
use std::collections::BTreeMap;
use std::marker::Model;

/// The most users that a file may have.
pub const MAX_USERS: usize = 4096;

/// Users in the order of their lines. No two have one name.
#[derive(Debug, Drop)]
pub struct Users {
    items: Vec<User>,
    // where the user of a name stands
    places: BTreeMap<String, usize>,
}

impl Model for Users {
    ghost use Rattle.std.specs.Prelude.{List};
    ghost use Rattle.user_store.specs.declared.user.User.{User};
    ghost use Rattle.user_store.specs.Places.{IsStore};

    ghost Value = { List User };

    ghost view = { λ u. u.items.items };

    ghost invariant = { λ u. IsStore u.items.items u.places };
}

impl Users {
    /// No user. It takes no memory.
    pub(crate) fn new(alloc: Global) -> Users
        ensures { result ≡ [] }
    {
        Users {
            items: Vec::new(alloc),
            places: BTreeMap::new(alloc),
        }
    }

    /// Whether a user has this name.
    fn has(&self, name: &str) -> bool
        ensures { result ≡ spec.has_user self.now name.now }
    {
        self.places.contains_key(name)
    }

    /// These users and one more; none where it is one too many, or one of its name is there.
    fn with_user(self, alloc: Global, user: User) -> Result<Option<Users>, NoMemory>
        requires { 1 ≤ user.rounds }
        ensures { IfOk result (λ users. users ≡ spec.with_user user self) }
    {
        if self.items.len() >= MAX_USERS || self.has(user.name.as_str()) {
            return Ok(None);
        }
        let Users {
            mut items,
            mut places,
        } = self;
        places.insert(String::from_str(alloc, user.name.as_str())?, items.len())?;
        items.push(user)?;
        Ok(Some(Users { items, places }))
    }

    /// These users, with one more attribute of the last; none where there is no user.
    fn with_attribute(self, attribute: Attribute) -> Result<Option<Users>, NoMemory>
        ensures { IfOk result (λ users. users ≡ spec.with_attribute attribute self) }
    {
        let Users { mut items, places } = self;
        let Some(mut user) = items.pop() else {
            return Ok(None);
        };
        user.attributes.push(attribute)?;
        items.push(user)?;
        Ok(Some(Users { items, places }))
    }

    /// These users, with what a line says; none where it is bad.
    pub(crate) fn with_line(self, alloc: Global, line: UserLine) -> Result<Option<Users>, NoMemory>
        requires { HasRounds line }
        ensures { IfOk result (λ users. users ≡ spec.with_line self line) }
    {
        match line {
            UserLine::User(user) => self.with_user(alloc, user),
            UserLine::Attribute { name, value } => {
                let mut values = Texts::new(alloc);
                values.push(value)?;
                self.with_attribute(Attribute { name, values })
            }
        }
    }

    /// The user of this name, where the password has the user's PBKDF2 value; none exactly where no user of the name
    /// has that value. It takes no memory. Its time is that of PBKDF2 with the rounds of the user or, where no user has
    /// the name, with those of the first: where all have as many rounds it doesn't tell which names there are.
    pub fn check(&self, user: &str, password: &[u8]) -> Option<&User>
        ensures { option_copied result ≡ spec.checked self.now user.now password.now }
    {
        let place = self.places.get(user).copied();
        let tried = self.items.get(place.unwrap_or(0))?;
        if !tried.has_password(password) {
            return None;
        }
        match place {
            Some(_) => Some(tried),
            None => None,
        }
    }
}
