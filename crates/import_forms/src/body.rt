//! Bodies of requests.

ghost use Rattle.serde_json.specs.Data.{Data};
ghost use Rattle.json_read.specs.Forms.{Formed};
ghost use Rattle.json_read.specs.Given as forms;
ghost use Rattle.json_read.specs.Views.{data_of};
ghost use Rattle.import_forms.specs.Bodies.{body_of, Gives};

use dh_base::items::Items;
use dh_changes::outcome::BodyFault;
use json::{Scratch, Value};
use json_read::fault::FormFault;
use json_read::read::read;
use std::alloc::Global;

/// How the JSON data of a body are read.
pub(crate) trait BodyForm<T: Drop> {
    /// What data stand for.
    ghost meant: { Self → Data → Formed T };

    /// Reads data.
    fn form(&self, alloc: Global, value: &Value<'_>) -> Result<T, FormFault>
        ensures { forms.Gives (meant self.now (data_of value.now)) result };
}

/// What a body stands for. A body that isn't JSON is at fault with the empty path.
pub(crate) fn read_body<T: Drop, F: BodyForm<T>>(
    alloc: Global,
    body: &[u8],
    form: &F,
) -> Result<T, BodyFault>
    ensures { Gives (body_of (F.meant form.now) body.now) result }
{
    let mut scratch = Scratch::new(alloc);
    match read(alloc, body, &mut scratch) {
        Ok(Some(value)) => match form.form(alloc, &value) {
            Ok(made) => Ok(made),
            Err(FormFault::At(path)) => Err(BodyFault::Bad { path }),
            Err(FormFault::Memory) => Err(BodyFault::Memory),
        },
        Ok(None) => Err(BodyFault::Bad {
            path: Items::new(alloc),
        }),
        Err(_) => Err(BodyFault::Memory),
    }
}
