ghost use Rattle.std.specs.Prelude.{◌≡◌, ◌<◌, ◌≤◌, ◌^◌, Some, None, [], length, map, true, slice_get, slice_index_or, IfOk, IfSome};
ghost use Rattle.dh_metadata.specs.Approval.{unit_rows, option_combo_rows, levels_at, need_of};
ghost use Rattle.dh_metadata.specs.Known.{AreFew, AreMade, HaveRules};
ghost use Rattle.dh_metadata.specs.Linked.{Each, AreBelow, IsBelow, IsLinked, IsLinkedUnit, IsLinkedUnitGroup, IsLinkedOption, IsLinkedCategory};
ghost use Rattle.dh_metadata.specs.Linked.{IsLinkedCombo, IsLinkedOptionCombo, IsLinkedElement, IsLinkedWorkflow, IsLinkedDataSet, IsLinkedIndicator};
ghost use Rattle.dh_metadata.specs.Linked.{IsLinkedRule, IsLinkedEntityType, IsLinkedProgram, IsLinkedStage, IsLinkedProgramIndicator, IsLinkedUser};
ghost use Rattle.dh_metadata.specs.Linked.{IsLinkedUserGroup};
ghost use Rattle.dh_metadata.specs.Objects.{count_of, find_of, is_shared, sharing_of, HaveIds};
ghost use Rattle.dh_metadata.specs.Sets.{has_element, is_assigned, sets_with};
ghost use Rattle.dh_metadata.specs.Users.{facts_of, has_authority, may_of, user_of, view_units_of};
ghost use Rattle.dh_metadata.specs.Workflows.{workflow_of};

use crate::authorities::is_granted;
use crate::held::Records;
use crate::ids::Ids;
use crate::kind::Kind;
use crate::made::{Made, make};
use crate::members::has;
use crate::needs::{least_level, need_from};
use crate::records::{
    ApprovalLevel, Attribute, Category, CategoryCombo, CategoryOption, Constant, DataSet, Element,
    EntityType, Indicator, IndicatorType, OptionCombo, Program, ProgramIndicator, Role, Rule,
    Stage, Unit, UnitGroup, User, UserGroup, Workflow,
};
use crate::structure::Structure;
use dh_base::items::Items;
use dh_base::memory::Memory;
use dh_base::plain::Need;
use dh_base::uid::Uid;
use dh_categories::combos::Combos;
use dh_sharing::access::Right;
use dh_sharing::rule::{Sharing, UserFacts, may};
use org_tree::tree::Tree;
use std::alloc::Global;
use std::collections::HashMap;
use std::marker::Model;

/// The metadata. An object is named by its number among those of its kind, and contracts see the
/// records alone.
pub struct Metadata {
    records: Records,
    ids: Ids,
    tree: Tree,
    combos: Combos,
    workflows: Vec<Option<u32>>,
    levels: Vec<Items<u8>>,
    set_elements: Vec<Items<u32>>,
    set_units: Vec<Items<u32>>,
    sets_with: Vec<Items<u32>>,
    facts: Vec<UserFacts>,
    tokens: HashMap<Vec<u8>, u32>,
}

// By hand, so that it is proved here alone and not in each crate above.
impl Drop for Metadata {
    fn drop(self) {
        let Metadata {
            records: _,
            ids: _,
            tree: _,
            combos: _,
            workflows: _,
            levels: _,
            set_elements: _,
            set_units: _,
            sets_with: _,
            facts: _,
            tokens: _,
        } = self;
    }
}

impl Model for Metadata {
    ghost use Rattle.dh_metadata.specs.declared.held.Records.{Records};
    ghost use Rattle.expr_lang.specs.contracts.expr.Expr as expression;
    ghost use Rattle.std.specs.Coded.{codes};

    ghost Value = { Records };

    ghost coded = { Prim.hlevel (codes, expression.the_row.coded) };

    ghost use Rattle.dh_metadata.specs.Held.{IsHeld};

    ghost view = { λ meta. meta.records };

    ghost invariant = { IsHeld };
}

impl Metadata {
    /// Metadata of these records, where the rules between them are kept.
    pub fn of(
        alloc: Global,
        records: Records,
        ids: Ids,
        held: Structure,
    ) -> Result<Metadata, Memory>
        requires few { AreFew records }
        requires linked { IsLinked records }
        requires ids { HaveIds records ids }
        requires held { HaveRules records held }
        ensures { IfOk result (λ meta. meta ≡ records) }
    {
        match make(alloc, &records, held.positions.as_slice()) {
            Ok(made) => Ok(with(records, ids, held, made)),
            Err(fault) => {
                drop(records);
                drop(ids);
                drop(held);
                Err(fault)
            }
        }
    }

    /// The number of the object of a kind that has the identifier, `None` where none has it.
    pub fn find(&self, kind: Kind, id: Uid) -> Option<u32>
        ensures value { result ≡ find_of self.now kind id }
        ensures in_range { IsBelow (count_of self.now kind) result }
    {
        self.ids.find(kind, id)
    }

    /// The number of objects of a kind.
    pub fn count(&self, kind: Kind) -> u32
        ensures { result ≡ count_of self.now kind }
    {
        self.ids.count(kind)
    }

    /// The organisation unit with that number.
    pub fn unit(&self, n: u32) -> &Unit
        requires { n < length self.now.organisation_units }
        ensures value { slice_get self.now.organisation_units n ≡ Some result.now }
        ensures linked { IsLinkedUnit self.now result.now }
    {
        object_at(self.records.organisation_units.as_slice(), n)
    }

    /// The group of organisation units with that number.
    pub fn unit_group(&self, n: u32) -> &UnitGroup
        requires { n < length self.now.organisation_unit_groups }
        ensures value { slice_get self.now.organisation_unit_groups n ≡ Some result.now }
        ensures linked { IsLinkedUnitGroup self.now result.now }
    {
        object_at(self.records.organisation_unit_groups.as_slice(), n)
    }

    /// The category option with that number.
    pub fn option(&self, n: u32) -> &CategoryOption
        requires { n < length self.now.category_options }
        ensures value { slice_get self.now.category_options n ≡ Some result.now }
        ensures linked { IsLinkedOption self.now result.now }
    {
        object_at(self.records.category_options.as_slice(), n)
    }

    /// The category with that number.
    pub fn category(&self, n: u32) -> &Category
        requires { n < length self.now.categories }
        ensures value { slice_get self.now.categories n ≡ Some result.now }
        ensures linked { IsLinkedCategory self.now result.now }
    {
        object_at(self.records.categories.as_slice(), n)
    }

    /// The category combination with that number.
    pub fn combo(&self, n: u32) -> &CategoryCombo
        requires { n < length self.now.category_combos }
        ensures value { slice_get self.now.category_combos n ≡ Some result.now }
        ensures linked { IsLinkedCombo self.now result.now }
    {
        object_at(self.records.category_combos.as_slice(), n)
    }

    /// The category option combination with that number.
    pub fn option_combo(&self, n: u32) -> &OptionCombo
        requires { n < length self.now.category_option_combos }
        ensures value { slice_get self.now.category_option_combos n ≡ Some result.now }
        ensures linked { IsLinkedOptionCombo self.now result.now }
    {
        object_at(self.records.category_option_combos.as_slice(), n)
    }

    /// The data element with that number.
    pub fn element(&self, n: u32) -> &Element
        requires { n < length self.now.data_elements }
        ensures value { slice_get self.now.data_elements n ≡ Some result.now }
        ensures linked { IsLinkedElement self.now result.now }
    {
        object_at(self.records.data_elements.as_slice(), n)
    }

    /// The approval level with that number.
    pub fn approval_level(&self, n: u32) -> &ApprovalLevel
        requires { n < length self.now.data_approval_levels }
        ensures { slice_get self.now.data_approval_levels n ≡ Some result.now }
    {
        object_at(self.records.data_approval_levels.as_slice(), n)
    }

    /// The approval workflow with that number.
    pub fn workflow(&self, n: u32) -> &Workflow
        requires { n < length self.now.data_approval_workflows }
        ensures value { slice_get self.now.data_approval_workflows n ≡ Some result.now }
        ensures linked { IsLinkedWorkflow self.now result.now }
    {
        object_at(self.records.data_approval_workflows.as_slice(), n)
    }

    /// The data set with that number.
    pub fn data_set(&self, n: u32) -> &DataSet
        requires { n < length self.now.data_sets }
        ensures value { slice_get self.now.data_sets n ≡ Some result.now }
        ensures linked { IsLinkedDataSet self.now result.now }
    {
        object_at(self.records.data_sets.as_slice(), n)
    }

    /// The constant with that number.
    pub fn constant(&self, n: u32) -> &Constant
        requires { n < length self.now.constants }
        ensures { slice_get self.now.constants n ≡ Some result.now }
    {
        object_at(self.records.constants.as_slice(), n)
    }

    /// The indicator type with that number.
    pub fn indicator_type(&self, n: u32) -> &IndicatorType
        requires { n < length self.now.indicator_types }
        ensures { slice_get self.now.indicator_types n ≡ Some result.now }
    {
        object_at(self.records.indicator_types.as_slice(), n)
    }

    /// The indicator with that number.
    pub fn indicator(&self, n: u32) -> &Indicator
        requires { n < length self.now.indicators }
        ensures value { slice_get self.now.indicators n ≡ Some result.now }
        ensures linked { IsLinkedIndicator self.now result.now }
    {
        object_at(self.records.indicators.as_slice(), n)
    }

    /// The validation rule with that number.
    pub fn rule(&self, n: u32) -> &Rule
        requires { n < length self.now.validation_rules }
        ensures value { slice_get self.now.validation_rules n ≡ Some result.now }
        ensures linked { IsLinkedRule self.now result.now }
    {
        object_at(self.records.validation_rules.as_slice(), n)
    }

    /// The type of tracked entities with that number.
    pub fn entity_type(&self, n: u32) -> &EntityType
        requires { n < length self.now.tracked_entity_types }
        ensures value { slice_get self.now.tracked_entity_types n ≡ Some result.now }
        ensures linked { IsLinkedEntityType self.now result.now }
    {
        object_at(self.records.tracked_entity_types.as_slice(), n)
    }

    /// The attribute of tracked entities with that number.
    pub fn attribute(&self, n: u32) -> &Attribute
        requires { n < length self.now.tracked_entity_attributes }
        ensures { slice_get self.now.tracked_entity_attributes n ≡ Some result.now }
    {
        object_at(self.records.tracked_entity_attributes.as_slice(), n)
    }

    /// The program with that number.
    pub fn program(&self, n: u32) -> &Program
        requires { n < length self.now.programs }
        ensures value { slice_get self.now.programs n ≡ Some result.now }
        ensures linked { IsLinkedProgram self.now result.now }
    {
        object_at(self.records.programs.as_slice(), n)
    }

    /// The program stage with that number.
    pub fn stage(&self, n: u32) -> &Stage
        requires { n < length self.now.program_stages }
        ensures value { slice_get self.now.program_stages n ≡ Some result.now }
        ensures linked { IsLinkedStage self.now result.now }
    {
        object_at(self.records.program_stages.as_slice(), n)
    }

    /// The program indicator with that number.
    pub fn program_indicator(&self, n: u32) -> &ProgramIndicator
        requires { n < length self.now.program_indicators }
        ensures value { slice_get self.now.program_indicators n ≡ Some result.now }
        ensures linked { IsLinkedProgramIndicator self.now result.now }
    {
        object_at(self.records.program_indicators.as_slice(), n)
    }

    /// The user role with that number.
    pub fn role(&self, n: u32) -> &Role
        requires { n < length self.now.user_roles }
        ensures { slice_get self.now.user_roles n ≡ Some result.now }
    {
        object_at(self.records.user_roles.as_slice(), n)
    }

    /// The user with that number.
    pub fn user(&self, n: u32) -> &User
        requires { n < length self.now.users }
        ensures value { slice_get self.now.users n ≡ Some result.now }
        ensures linked { IsLinkedUser self.now result.now }
    {
        object_at(self.records.users.as_slice(), n)
    }

    /// The user group with that number.
    pub fn user_group(&self, n: u32) -> &UserGroup
        requires { n < length self.now.user_groups }
        ensures value { slice_get self.now.user_groups n ≡ Some result.now }
        ensures linked { IsLinkedUserGroup self.now result.now }
    {
        object_at(self.records.user_groups.as_slice(), n)
    }

    /// The tree of the organisation units.
    pub fn tree(&self) -> &Tree
        ensures { result.now ≡ unit_rows self.now }
    {
        &self.tree
    }

    /// The category option combinations by their combination.
    pub fn combos(&self) -> &Combos
        ensures { result.now ≡ option_combo_rows self.now }
    {
        &self.combos
    }

    /// Whether an approval has to be accepted before the level above may approve.
    pub fn acceptance_required(&self) -> bool
        ensures { result ≡ self.now.acceptance_required }
    {
        self.records.acceptance_required
    }

    /// The approval workflow of a data element, `None` where no data set with it names one.
    pub fn workflow_of(&self, element: u32) -> Option<u32>
        requires { element < length self.now.data_elements }
        ensures value { result ≡ workflow_of self.now.data_sets element }
        ensures in_range { IsBelow (length self.now.data_approval_workflows) result }
    {
        workflow_at(self.workflows.as_slice(), element)
    }

    /// The tree levels of a workflow's levels in ascending number. A position is a place in this list.
    pub fn positions(&self, workflow: u32) -> &[u8]
        requires { workflow < length self.now.data_approval_workflows }
        ensures value { result.now ≡ levels_at self.now workflow }
        ensures few { length result.now ≤ 8 }
    {
        self.levels[workflow as usize].as_slice()
    }

    /// Whether the element is in the data set.
    pub fn has_element(&self, set: u32, element: u32) -> bool
        requires { set < length self.now.data_sets }
        ensures { result ≡ has_element self.now set element }
    {
        has(list_at(self.set_elements.as_slice(), set), element)
    }

    /// Whether the unit is assigned to the data set.
    pub fn is_assigned(&self, set: u32, unit: u32) -> bool
        requires { set < length self.now.data_sets }
        ensures { result ≡ is_assigned self.now set unit }
    {
        has(list_at(self.set_units.as_slice(), set), unit)
    }

    /// The data sets with the element, in the order of the bytes of their identifiers.
    pub fn sets_with(&self, element: u32) -> &[u32]
        requires { element < length self.now.data_elements }
        ensures value { result.now ≡ sets_with self.now element }
        ensures in_range { AreBelow (length self.now.data_sets) result.now }
    {
        list_at(self.sets_with.as_slice(), element)
    }

    /// What the rule of sharing asks of the user.
    pub fn facts(&self, user: u32) -> &UserFacts
        requires { user < length self.now.users }
        ensures { result.now ≡ facts_of self.now user }
    {
        &self.facts[user as usize]
    }

    /// Whether a role of the user has the authority, or `ALL`.
    pub fn has_authority(&self, user: u32, authority: &[u8]) -> bool
        requires { user < length self.now.users }
        ensures { result ≡ has_authority self.now user authority.now }
    {
        self.facts(user).all
            || is_granted(
                self.records.user_roles.as_slice(),
                self.user(user),
                authority,
            )
    }

    /// How an object is shared.
    pub fn sharing_of(&self, kind: Kind, n: u32) -> &Sharing
        requires shared { is_shared kind ≡ true }
        requires in_range { n < count_of self.now kind }
        ensures value { sharing_of self.now kind n ≡ Some result.now }
    {
        match kind {
            Kind::CategoryOption => &self.option(n).sharing,
            Kind::DataElement => &self.element(n).sharing,
            Kind::DataSet => &self.data_set(n).sharing,
            Kind::Indicator => &self.indicator(n).sharing,
            Kind::ValidationRule => &self.rule(n).sharing,
            Kind::TrackedEntityType => &self.entity_type(n).sharing,
            Kind::Program => &self.program(n).sharing,
            Kind::ProgramIndicator => &self.program_indicator(n).sharing,
            _ => unreachable!(),
        }
    }

    /// Whether the user has the right to the object.
    pub fn may(&self, user: u32, right: Right, kind: Kind, n: u32) -> bool
        requires user { user < length self.now.users }
        requires shared { is_shared kind ≡ true }
        requires in_range { n < count_of self.now kind }
        ensures { result ≡ may_of self.now user right kind n }
    {
        may(self.facts(user), right, self.sharing_of(kind, n))
    }

    /// The units under which a user sees values: the capture units where the list of view units is empty.
    pub fn view_units(&self, user: u32) -> &[u32]
        requires { user < length self.now.users }
        ensures value { result.now ≡ view_units_of self.now user }
        ensures in_range { AreBelow (length self.now.organisation_units) result.now }
    {
        let found = self.user(user);
        if found.data_view_organisation_units.len() == 0 {
            found.organisation_units.as_slice()
        } else {
            found.data_view_organisation_units.as_slice()
        }
    }

    /// The user of a token, `None` where no token has these bytes.
    pub fn user_of(&self, token: &[u8]) -> Option<u32>
        ensures value { result ≡ user_of self.now token.now }
        ensures in_range { IsBelow (length self.now.users) result }
    {
        self.tokens.get(token).copied()
    }

    /// What the user has to see approved in the workflow.
    #[tactic(auto, unfolding(crate::specs::Approval::view_unapproved))]
    pub fn need(&self, user: u32, workflow: u32) -> Need
        requires user { user < length self.now.users }
        requires workflow { workflow < length self.now.data_approval_workflows }
        ensures { result ≡ need_of self.now user workflow }
    {
        if self.has_authority(user, b"F_VIEW_UNAPPROVED_DATA") {
            return Need::All;
        }
        let least = least_level(&self.tree, self.view_units(user));
        need_from(self.positions(workflow), least)
    }
}

// Metadata of these records and what was looked up of them.
fn with(records: Records, ids: Ids, held: Structure, made: Made) -> Metadata
    requires linked { IsLinked records }
    requires ids { HaveIds records ids }
    requires held { HaveRules records held }
    requires made { AreMade records held.positions.items made }
    ensures { result ≡ records }
{
    Metadata {
        records,
        ids,
        tree: held.tree,
        combos: held.combos,
        workflows: held.workflows,
        levels: made.levels,
        set_elements: made.lists.elements,
        set_units: made.lists.units,
        sets_with: made.lists.having,
        facts: made.facts,
        tokens: made.tokens,
    }
}

fn object_at<T>(objects: &[T], n: u32) -> &T
    requires { n < length objects.now }
    ensures { slice_get objects.now n ≡ Some result.now }
{
    &objects[n as usize]
}

fn list_at(lists: &[Items<u32>], n: u32) -> &[u32]
    requires { n < length lists.now }
    ensures { result.now ≡ slice_index_or lists.now n [] }
{
    lists[n as usize].as_slice()
}

fn workflow_at(workflows: &[Option<u32>], n: u32) -> Option<u32>
    requires { n < length workflows.now }
    ensures { result ≡ slice_index_or workflows.now n None }
{
    workflows[n as usize]
}
