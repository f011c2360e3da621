// The tables of dual, glb and lub on numbers: which form an answer has, and what becomes of nil and of final.
#![tactic(auto)]

ghost use Rattle.std.specs.Prelude.{◌≡◌, ◌≤◌};
ghost use Rattle.walk_rules.specs.declared.Walk.TheVariants.{Dual};
ghost use Rattle.walk_rules.specs.Tables.{end_of, struct_form, tuple_form, form_for, nil_of, final_of};

use words::{fresh, kinds};

// The operation that a walk is for.
#[derive(Clone, Copy)]
pub enum Walk {
    Dual,
    Glb,
    Lub,
}

// What a walk does with a type.
#[derive(Clone, Copy)]
pub enum Form {
    Is(usize),
    AnInt,
    AFloat,
    ATuple,
    AStruct,
    APointer,
    AMemory,
}

// ---- which form an answer has

fn dual_end(k: u64) -> usize
    ensures { result ≡ end_of Dual k }
{
    if k == kinds::BOT {
        return fresh::TOP;
    }
    if k == kinds::TOP {
        return fresh::BOT;
    }
    if k == kinds::CTRL {
        return fresh::XCTRL;
    }
    fresh::CTRL
}

fn end_of(walk: Walk, k: u64) -> usize
    ensures { result ≡ end_of walk k }
{
    match walk {
        Walk::Dual => dual_end(k),
        Walk::Glb => {
            if k == kinds::CTRL {
                return fresh::CTRL;
            }
            fresh::BOT
        }
        Walk::Lub => {
            if k == kinds::CTRL {
                return fresh::XCTRL;
            }
            fresh::TOP
        }
    }
}

fn dual_struct(a: usize) -> Form
    ensures { result ≡ struct_form Dual a }
{
    if a == fresh::STRUCT_TOP {
        return Form::Is(fresh::STRUCT_BOT);
    }
    if a == fresh::STRUCT_BOT {
        return Form::Is(fresh::STRUCT_TOP);
    }
    Form::AStruct
}

fn struct_form(walk: Walk, a: usize) -> Form
    ensures { result ≡ struct_form walk a }
{
    match walk {
        Walk::Dual => dual_struct(a),
        Walk::Glb => Form::AStruct,
        Walk::Lub => Form::AStruct,
    }
}

fn tuple_form(walk: Walk) -> Form
    ensures { result ≡ tuple_form walk }
{
    match walk {
        Walk::Dual => Form::ATuple,
        Walk::Glb => Form::ATuple,
        Walk::Lub => Form::Is(fresh::TOP),
    }
}

// The form of the walk of the type at a, whose kind is k.
pub fn form_for(walk: Walk, a: usize, k: u64) -> Form
    ensures { result ≡ form_for walk a k }
{
    if k <= kinds::XCTRL {
        return Form::Is(end_of(walk, k));
    }
    if k == kinds::INT {
        return Form::AnInt;
    }
    if k == kinds::FLOAT {
        return Form::AFloat;
    }
    if k == kinds::TUPLE {
        return tuple_form(walk);
    }
    if k == kinds::STRUCT {
        return struct_form(walk, a);
    }
    if k == kinds::FREF {
        return Form::Is(a);
    }
    if k == kinds::MEM_PTR {
        return Form::APointer;
    }
    Form::AMemory
}

// ---- nil and final

pub fn nil_of(walk: Walk, nil: u64) -> u64
    requires { nil ≤ 1 }
    ensures { result ≡ nil_of walk nil }
{
    match walk {
        Walk::Dual => 1 - nil,
        Walk::Glb => 1,
        Walk::Lub => 0,
    }
}

// Of a field's flags, 2 × alias + final.
pub fn final_of(walk: Walk, v: u64) -> u64
    ensures { (result ≡ final_of walk v) × (result ≤ 1) }
{
    match walk {
        Walk::Dual => 1 - v % 2,
        Walk::Glb => v % 2,
        Walk::Lub => v % 2,
    }
}
