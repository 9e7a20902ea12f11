//! Laws of drafts and of members that are added again. The functions do nothing: what they ensure is the law.
ghost use Rattle.std.specs.Prelude.{◌≡◌, ◌≢◌, ◌≤◌, ℕ, List as Items, Option, length, All, AllPairs, IsSome, IsTrue};
ghost use Rattle.vs_defs.specs.Insertion.{IsChosen};
ghost use Rattle.vs_defs.specs.Links.{stands_at};
ghost use Rattle.vs_defs.specs.Store.{Set, with_replaced};
ghost use Rattle.vs_defs.specs.Bytes.{Bytes};
ghost use Rattle.vs_defs.specs.Vector.{Vector};
ghost use Rattle.vs_graph.specs.declared.node.Attr.{Attr};
ghost use Rattle.vs_graph.specs.declared.node.Node.{Node};
ghost use Rattle.vs_graph.specs.Good.{AreLinksGood};
ghost use Rattle.vs_graph.specs.Standing.{AreIds, members_of, name_of};
ghost use Rattle.vs_unlink.specs.Unlinked.{IsWithout};
ghost use Rattle.vs_insert.specs.declared.draft.Chosen.{Chosen};
ghost use Rattle.vs_insert.specs.declared.draft.Draft.{Draft};
ghost use Rattle.vs_insert.specs.Added.{IsAdded};
ghost use Rattle.vs_insert.specs.Chosen.{drafted_member, AreChosenNames};
ghost use Rattle.vs_insert.specs.Drafts.{names_of, AreChoices};

/// A member that was taken out and is added again at its id, under its name, stands in its old place.
pub fn a_member_added_again_keeps_its_place()
    ensures ids { (at mid new : ℕ → Option Node) (entry : Option ℕ) (m dim x : ℕ) (attr : Option Attr) (draft : Draft) (ids : Items ℕ) → AreLinksGood at m dim → AreIds at ids → IsWithout at mid x
        → IsAdded mid new entry m dim x attr draft → name_of at x ≡ draft.body.name → AreIds new ids }
    ensures members { (at mid new : ℕ → Option Node) (entry : Option ℕ) (m dim x : ℕ) (attr : Option Attr) (draft : Draft) (ids : Items ℕ) → AreLinksGood at m dim → AreIds at ids → IsWithout at mid x
        → IsAdded mid new entry m dim x attr draft → name_of at x ≡ draft.body.name → members_of new dim ids ≡ with_replaced (drafted_member dim attr draft) (members_of at dim ids) }
{}

/// Chosen members that are found by their names, whatever their ids, may be linked to: at most M names, all different, of members of the
/// layer.
pub fn members_found_by_name_may_be_linked_to()
    ensures { (at : ℕ → Option Node) (m dim layer : ℕ) (ids : Items ℕ) (list : Items Chosen) → AreLinksGood at m dim → AreIds at ids → All (λ c. IsSome (at c.id) × (name_of at c.id ≡ c.body.name)) list
        → AllPairs (λ a b. a ≢ b) (names_of list) → length list ≤ m → All (λ name. IsTrue (stands_at (members_of at dim ids) layer name)) (names_of list) → AreChoices at m layer list }
{}

/// The definitions' choice has one list for each layer, from the highest down, each of at most M names, all different, of members of the
/// layer.
pub fn a_choice_has_few_different_members_of_each_layer()
    ensures { (s : Set) (q : Vector) (level ef : ℕ) (chosen : Items (Items Bytes)) → IsChosen s q level ef chosen → AreChosenNames s level chosen }
{}
