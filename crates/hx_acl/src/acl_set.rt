ghost use Rattle.std.specs.Prelude.{◌≡◌, ◌↔◌, [], ◌∷◌, ◌++◌, Contains, OnOk, OnErr, IfOk, IsErrOf, true, false};
ghost use Rattle.hx_acl.specs.AclSetView.{IsLast};
ghost use Rattle.hx_acl.specs.Expressions.{has_expressions};
ghost use Rattle.hx_acl.specs.Grounds.{name_ground};
ghost use Rattle.hx_acl.specs.Holds.{HasAclsHeads, name_holds};
ghost use Rattle.hx_acl.specs.Typing.{is_decl_typed};
ghost use Rattle.hx_expr.specs.Expressions.{expression_texts};
ghost use Rattle.hx_expr.specs.Faults.{CompileCountsLarge};
ghost use Rattle.hx_fetch.specs.World.{context_of};

use crate::explaining::{Ground, predefined_ground};
use crate::predefined::predefined_matches;
use crate::test::{Test, build_test};
use crate::typing::is_decl_typed;
use hx_ast::Decl;
use hx_expr::PlanFault;
use hx_fetch::World;
use hx_outside::ReMaker;
use hx_pool::Steps;
use hx_sample::Tables;
use hx_text::{NoMemory, Octets};
use std::alloc::Global;
use std::collections::BTreeMap;
use std::marker::Model;
use std::sync::ledger::Ledger;

/// A declaration of an ACL: the name, what is tested, and the position of the declaration of the
/// same name before it, if there is one.
struct Declared {
    name: Octets,
    test: Test,
    earlier: Option<usize>,
}

// Written out, so that letting one go is one call in the proofs of callers.
impl Drop for Declared {
    fn drop(self) {
        let Declared {
            name: _name,
            test: _test,
            earlier: _earlier,
        } = self;
    }
}

/// The ACLs that are declared (HAProxy configuration manual 2.4, section 7.1). Contracts see them
/// as the list of the declarations, in their order, each with the name of its ACL.
///
/// The last declaration of each name is kept in an ordered map, and each declaration knows the one
/// of its name before it. So what a name costs at a request grows with its own declarations, and
/// with the logarithm of the number of names.
pub struct AclSet {
    alloc: Global,
    tests: Vec<Declared>,
    positions: BTreeMap<Octets, usize>,
}

// Written out, so that letting one go is one call in the proofs of callers.
impl Drop for AclSet {
    fn drop(self) {
        let AclSet {
            alloc: _alloc,
            tests: _tests,
            positions: _positions,
        } = self;
    }
}

impl Model for AclSet {
    ghost use Rattle.std.specs.Prelude.{List, ℕ};
    ghost use Rattle.hx_ast.specs.declared.statement.Decl.{Decl};

    ghost Value = { List (List ℕ × Decl) };

    ghost use Rattle.hx_acl.specs.AclSetView.{AreIndexed, declarations};

    ghost view = { λ acls. declarations acls.tests.items };

    ghost invariant = { λ acls. AreIndexed acls.tests.items acls.positions.entries };
}

impl AclSet {
    /// No ACLs. It takes no memory; those that are declared later are kept in memory of `alloc`.
    pub fn new(alloc: Global) -> AclSet
        ensures { result ≡ [] }
    {
        AclSet {
            alloc,
            tests: Vec::new(alloc),
            positions: BTreeMap::new(alloc),
        }
    }

    /// Declares the ACL `name`: from now on it holds also where `decl` matches. Its regular
    /// expressions are made by `maker`. Its inline patterns are kept as they are written and aren't
    /// read: `holds` looks samples up under its heads.
    ///
    /// `BadType` exactly where a converter takes a type to which what stands before it has no cast,
    /// or the value has none to the type that the match method looks at: that is judged first.
    /// `BadPattern`, `TooLarge` and `NoMemory` come as with `hx_expr::compile`. After any of them
    /// the ACLs are as before.
    pub fn declare<M: ReMaker>(
        &mut self,
        name: &[u8],
        decl: &Decl,
        maker: &mut M,
    ) -> Result<(), PlanFault>
        ensures ok { OnOk result (self.new ≡ self.old ++ (name.now, decl.now) ∷ []) }
        ensures err { OnErr result (self.new ≡ self.old) }
        ensures types { OnOk result (is_decl_typed decl.now ≡ true) }
        ensures bad_type { (IsErrOf result PlanFault.BadType) ↔ (is_decl_typed decl.now ≡ false) }
        ensures expressions { OnOk result (has_expressions decl.now.expr ≡ true) }
        ensures bad_pattern { IsErrOf result PlanFault.BadPattern →
            has_expressions decl.now.expr ≡ false }
        ensures large { CompileCountsLarge result (Contains (expression_texts decl.now.expr))
            (M.state maker.old) (M.state maker.new) }
    {
        if !is_decl_typed(decl) {
            return Err(PlanFault::BadType);
        }
        let test = build_test(self.alloc, decl, maker)?;
        self.append(name, test)?;
        Ok(())
    }

    /// Appends a declaration. Where memory runs out the ACLs are as before.
    fn append(&mut self, name: &[u8], test: Test) -> Result<(), NoMemory>
        ensures ok { OnOk result (self.new ≡ self.old ++ (name.now, test) ∷ []) }
        ensures err { OnErr result (self.new ≡ self.old) }
    {
        let key = Octets::copy(self.alloc, name)?;
        let name = Octets::copy(self.alloc, name)?;
        self.tests.reserve(1)?;
        let earlier = self.positions.insert(key, self.tests.len())?;
        let declared = Declared {
            name,
            test,
            earlier,
        };
        match self.tests.push(declared) {
            Ok(()) => Ok(()),
            Err(_) => unreachable!(),
        }
    }

    /// The position of the last declaration of the ACL of this name, if it is declared.
    fn last_of(&self, name: &Octets) -> Option<usize>
        ensures { IsLast self.now name.now result }
    {
        self.positions.get(name).copied()
    }

    /// Whether the ACL of this name holds in `world`. Its declarations are tried from the last one
    /// on.
    pub(crate) fn name_holds<'w, T: Tables, L: Ledger>(
        &self,
        alloc: Global,
        name: &Octets,
        world: &World<'w>,
        tables: &'w T,
        steps: &mut Steps<L>,
    ) -> Result<bool, NoMemory>
        requires { HasAclsHeads (T.heads (T.state tables.now)) self.now }
        ensures { IfOk result (λ holds. holds
            ≡ name_holds (context_of world.now) (T.heads (T.state tables.now))
            (T.lists (T.state tables.now))
            self.now name.now) }
    {
        let mut left = self.last_of(name);
        if left.is_none() {
            return Ok(predefined_matches(name.as_slice(), world));
        }
        let tests = self.tests.as_slice();
        while let Some(at) = left {
            let declared = &tests[at];
            if declared.test.matches(alloc, world, tables, steps)? {
                return Ok(true);
            }
            left = declared.earlier;
        }
        Ok(false)
    }

    /// What the ACL of this name holds by in `world`, if it holds. Its declarations are tried from
    /// the last one on, and the first of them that matches counts.
    pub(crate) fn name_ground<'w, T: Tables, L: Ledger>(
        &self,
        alloc: Global,
        name: &Octets,
        world: &World<'w>,
        tables: &'w T,
        steps: &mut Steps<L>,
    ) -> Result<Option<Ground>, NoMemory>
        requires { HasAclsHeads (T.heads (T.state tables.now)) self.now }
        ensures { IfOk result (λ given. given
            ≡ name_ground (context_of world.now) (T.heads (T.state tables.now))
            (T.lists (T.state tables.now))
            self.now name.now) }
    {
        let Some(last) = self.last_of(name) else {
            return Ok(predefined_ground(name.as_slice(), world));
        };
        let tests = self.tests.as_slice();
        let mut given = None;
        let mut left = Some(last);
        while let Some(at) = left {
            let declared = &tests[at];
            let first = declared.test.matching_ground(alloc, world, tables, steps)?;
            given = first.or(given);
            left = declared.earlier;
        }
        Ok(given)
    }
}
