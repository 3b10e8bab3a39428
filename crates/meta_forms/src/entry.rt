//! What stands inside objects: elements of data sets and stages, attributes of programs, sides of rules,
//! values of constants, tokens and settings.

ghost use Rattle.std.specs.Prelude.{◌≡◌, IfOk, option_map};
ghost use Rattle.std.specs.Fmt.{signed_decimal};
ghost use Rattle.std.specs.List.{list_all};
ghost use Rattle.json_read.specs.Views.{data_of};
ghost use Rattle.dh_base.specs.Decimals.{decimal_of};
ghost use Rattle.meta_forms.specs.Entries.{is_visible, token_in, constant_of, acceptance_of, side_of};

use crate::entries::Entry;
use crate::field::{OptionalReference, ReferenceAt};
use crate::named::Name;
use crate::part::{FieldOr, Part};
use dh_base::decimal::{Micros, read_decimal};
use dh_base::items::Items;
use dh_base::plain::Strategy;
use dh_base::uid::Uid;
use json::Value;
use json_read::fault::FormFault;
use json_read::form::{ReadJson, field, field_or, require_object};
use json_read::look::{integer, text};
use json_read::path::here;
use std::alloc::{AllocError, Global};
use std::marker::PhantomData;

/// An element of a data set, and the category combination that is named beside it.
#[derive(Drop)]
pub struct SetElement {
    pub element: Uid,
    pub combo: Option<Uid>,
}

/// An attribute of a program.
#[derive(Drop)]
pub struct ProgramAttribute {
    pub attribute: Uid,
}

/// An element of a program stage.
#[derive(Drop)]
pub struct StageElement {
    pub element: Uid,
}

/// A side of a validation rule.
#[derive(Drop)]
pub struct Side {
    pub expression: Items<u8>,
    pub strategy: Strategy,
}

/// The value of a constant.
#[derive(Drop)]
pub struct ConstantValue {
    pub value: Micros,
}

/// The text of a token.
#[derive(Drop)]
pub struct TokenText {
    pub text: Items<u8>,
}

/// A token and its user.
#[derive(Drop)]
pub struct Token {
    pub token: TokenText,
    pub user: Uid,
}

/// The settings of the system.
#[derive(Drop)]
pub struct Settings {
    pub acceptance_required: bool,
}

impl ReadJson for SetElement {
    ghost use Rattle.meta_forms.specs.Entries.{set_element_of};

    ghost form = { set_element_of };

    #[tactic(auto, unfolding(crate::specs::Entries::set_element_of))]
    fn read(alloc: Global, value: &Value<'_>) -> Result<SetElement, FormFault> {
        require_object(alloc, value)?;
        let element = ReferenceAt("dataElement").read(alloc, value)?;
        let combo = OptionalReference("categoryCombo").read(alloc, value)?;
        Ok(SetElement { element, combo })
    }
}

impl Entry for SetElement {
    type Held = (Uid, Option<Uid>);

    ghost held = { λ entry. (entry.element, entry.combo) };

    fn into_held(self) -> (Uid, Option<Uid>) {
        (self.element, self.combo)
    }
}

impl ReadJson for ProgramAttribute {
    ghost use Rattle.meta_forms.specs.Entries.{attribute_of};

    ghost form = { attribute_of };

    #[tactic(auto, unfolding(crate::specs::Entries::attribute_of))]
    fn read(alloc: Global, value: &Value<'_>) -> Result<ProgramAttribute, FormFault> {
        require_object(alloc, value)?;
        let attribute = ReferenceAt("trackedEntityAttribute").read(alloc, value)?;
        Ok(ProgramAttribute { attribute })
    }
}

impl Entry for ProgramAttribute {
    type Held = Uid;

    ghost held = { λ entry. entry.attribute };

    fn into_held(self) -> Uid {
        self.attribute
    }
}

impl ReadJson for StageElement {
    ghost use Rattle.meta_forms.specs.Entries.{stage_element_of};

    ghost form = { stage_element_of };

    #[tactic(auto, unfolding(crate::specs::Entries::stage_element_of))]
    fn read(alloc: Global, value: &Value<'_>) -> Result<StageElement, FormFault> {
        require_object(alloc, value)?;
        let element = ReferenceAt("dataElement").read(alloc, value)?;
        Ok(StageElement { element })
    }
}

impl Entry for StageElement {
    type Held = Uid;

    ghost held = { λ entry. entry.element };

    fn into_held(self) -> Uid {
        self.element
    }
}

impl ReadJson for Side {
    ghost use Rattle.meta_forms.specs.Entries.{side_form};

    ghost form = { side_form };

    #[tactic(auto, unfolding(crate::specs::Entries::side_form))]
    fn read(alloc: Global, value: &Value<'_>) -> Result<Side, FormFault> {
        require_object(alloc, value)?;
        let expression = field(alloc, value, "expression")?;
        let names = Name::<Strategy>(PhantomData);
        let strategy = FieldOr("missingValueStrategy", names, Strategy::Never).read(alloc, value)?;
        Ok(Side {
            expression,
            strategy,
        })
    }
}

fn number_read(alloc: Global, number: i64) -> Result<Option<Micros>, AllocError>
    ensures { IfOk result (λ value. value ≡ decimal_of (signed_decimal number)) }
{
    let text = format!(in alloc; "{number}")?.into_bytes();
    Ok(read_decimal(&text))
}

#[tactic(auto, unfolding(crate::specs::Entries::constant_of))]
fn constant_of(alloc: Global, value: &Value<'_>) -> Result<Option<Micros>, AllocError>
    ensures { IfOk result (λ found. found ≡ constant_of (data_of value.now)) }
{
    match text(value) {
        Some(digits) => Ok(read_decimal(digits.as_bytes())),
        None => match integer(value) {
            Some(number) => number_read(alloc, number),
            None => Ok(None),
        },
    }
}

impl ReadJson for ConstantValue {
    ghost use Rattle.meta_forms.specs.Entries.{constant_form};

    ghost form = { constant_form };

    fn read(alloc: Global, value: &Value<'_>) -> Result<ConstantValue, FormFault> {
        match constant_of(alloc, value)? {
            Some(value) => Ok(ConstantValue { value }),
            None => Err(here(alloc)),
        }
    }
}

fn all_visible(text: &[u8]) -> bool
    ensures { result ≡ list_all is_visible text.now }
{
    for byte in text {
        if !(33 <= *byte && *byte <= 126) {
            return false;
        }
    }
    true
}

#[tactic(auto, unfolding(crate::specs::Entries::is_token))]
fn token_in<'a>(value: &'a Value<'_>) -> Option<&'a [u8]>
    ensures { option_map (λ text. text.now) result ≡ token_in (data_of value.now) }
{
    let token = text(value)?.as_bytes();
    if 1 <= token.len() && token.len() <= 64 && all_visible(token) {
        Some(token)
    } else {
        None
    }
}

impl ReadJson for TokenText {
    ghost use Rattle.meta_forms.specs.Entries.{token_text_of};

    ghost form = { token_text_of };

    fn read(alloc: Global, value: &Value<'_>) -> Result<TokenText, FormFault> {
        match token_in(value) {
            Some(text) => Ok(TokenText {
                text: Items::from(text.to_vec(alloc)?),
            }),
            None => Err(here(alloc)),
        }
    }
}

impl ReadJson for Token {
    ghost use Rattle.meta_forms.specs.Entries.{token_of};

    ghost form = { token_of };

    #[tactic(auto, unfolding(crate::specs::Entries::token_of))]
    fn read(alloc: Global, value: &Value<'_>) -> Result<Token, FormFault> {
        require_object(alloc, value)?;
        let token = field(alloc, value, "token")?;
        let user = ReferenceAt("user").read(alloc, value)?;
        Ok(Token { token, user })
    }
}

impl Entry for Token {
    type Held = (Items<u8>, Uid);

    ghost held = { λ entry. (entry.token.text, entry.user) };

    fn into_held(self) -> (Items<u8>, Uid) {
        (self.token.text, self.user)
    }
}

impl ReadJson for Settings {
    ghost use Rattle.meta_forms.specs.Entries.{settings_of};

    ghost form = { settings_of };

    #[tactic(auto, unfolding(crate::specs::Entries::settings_of))]
    fn read(alloc: Global, value: &Value<'_>) -> Result<Settings, FormFault> {
        require_object(alloc, value)?;
        let acceptance_required = field_or(
            alloc,
            value,
            "keyAcceptanceRequiredForApproval",
            false,
        )?;
        Ok(Settings {
            acceptance_required,
        })
    }
}

/// A side of a validation rule: its expression and its missing-value strategy.
#[derive(Drop)]
pub struct RuleSide<'a>(pub &'a str);

impl<'a> Part for RuleSide<'a> {
    type Read = (Items<u8>, Strategy);

    ghost form = { λ field. side_of field.0.now };

    #[tactic(auto, unfolding(crate::specs::Entries::side_of))]
    fn read(&self, alloc: Global, value: &Value<'_>) -> Result<(Items<u8>, Strategy), FormFault> {
        let side: Side = field(alloc, value, self.0)?;
        Ok((side.expression, side.strategy))
    }
}

/// Whether an approval has to be accepted before the level above may approve.
#[derive(Drop)]
pub struct AcceptanceRequired {}

impl Part for AcceptanceRequired {
    type Read = bool;

    ghost form = { λ _. acceptance_of };

    #[tactic(auto, unfolding(crate::specs::Entries::acceptance_of))]
    fn read(&self, alloc: Global, value: &Value<'_>) -> Result<bool, FormFault> {
        let default = Settings {
            acceptance_required: false,
        };
        let settings: Settings = field_or(alloc, value, "systemSettings", default)?;
        Ok(settings.acceptance_required)
    }
}
