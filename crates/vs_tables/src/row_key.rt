ghost use Rattle.std.specs.Prelude.{◌≡◌, IfOk};
ghost use Rattle.std.specs.Cmp.{eq_by_cmp_equiv, partial_equiv_from_equiv, partial_order_from_total};
ghost use Rattle.std.specs.Ordering.{as_partial_cmp, eq_by_cmp};
ghost use Rattle.vs_tables.specs.Rows.{parts_order};
ghost use Rattle.vs_tables.specs.RowKeys.{parts_in, parts_total};

use crate::key::KeyPart;
use std::alloc::Global;
use std::cmp::Ordering;
use std::marker::Model;
use vs_base::{List, OutOfMemory};

#[derive(Debug, Drop)]
enum KeyForm {
    /// One number, as most keys are.
    Number(i64),
    Parts(Box<List<KeyPart>>),
}

/// The key of a row. One number takes no memory of its own.
#[derive(Debug, Drop)]
pub struct RowKey {
    form: KeyForm,
}

impl Model for RowKey {
    ghost use Rattle.std.specs.Prelude.{List as Items};
    ghost use Rattle.vs_tables.specs.declared.key.KeyPart.{KeyPart};
    ghost use Rattle.vs_tables.specs.RowKeys.{parts_in};

    ghost Value = { Items KeyPart };

    ghost view = { λ k. parts_in k.form };
}

impl RowKey {
    pub(crate) fn new(alloc: Global, parts: List<KeyPart>) -> Result<RowKey, OutOfMemory>
        ensures { IfOk result (λ key. key ≡ parts) }
    {
        if let [KeyPart::Number(number)] = parts.as_slice() {
            if let Ok(number) = i64::try_from(*number) {
                return Ok(RowKey {
                    form: KeyForm::Number(number),
                });
            }
        }
        let parts = Box::new(alloc, parts)?;
        Ok(RowKey {
            form: KeyForm::Parts(parts),
        })
    }
}

fn number_part(number: i64) -> [KeyPart; 1]
    ensures { result ≡ parts_in (KeyForm.Number number) }
{
    [KeyPart::Number(i128::from(number))]
}

fn compare(own: &KeyForm, other: &KeyForm) -> Ordering
    ensures { result ≡ parts_order (parts_in own.now) (parts_in other.now) }
{
    match (own, other) {
        (KeyForm::Number(own), KeyForm::Number(other)) => own.cmp(other),
        (KeyForm::Number(own), KeyForm::Parts(other)) => {
            number_part(*own).as_slice().cmp(other.as_slice())
        }
        (KeyForm::Parts(own), KeyForm::Number(other)) => {
            own.as_slice().cmp(number_part(*other).as_slice())
        }
        (KeyForm::Parts(own), KeyForm::Parts(other)) => own.as_slice().cmp(other.as_slice()),
    }
}

impl PartialEq for RowKey {
    ghost eq = { eq_by_cmp parts_order };

    ghost laws = { partial_equiv_from_equiv (eq_by_cmp_equiv parts_total) };

    fn eq(&self, other: &Self) -> bool {
        compare(&self.form, &other.form).is_eq()
    }
}

impl Eq for RowKey {
    ghost laws = { eq_by_cmp_equiv parts_total };
}

impl PartialOrd for RowKey {
    ghost partial_cmp = { as_partial_cmp parts_order };

    ghost laws = { partial_order_from_total parts_total };

    fn partial_cmp(&self, other: &Self) -> Option<Ordering> {
        Some(compare(&self.form, &other.form))
    }
}

impl Ord for RowKey {
    ghost use Rattle.std.specs.Prelude.{refl};

    ghost cmp = { parts_order };

    ghost total = { parts_total };

    ghost matches_partial_cmp = { λ x y. refl };

    ghost matches_eq = { λ x y. refl };

    fn cmp(&self, other: &Self) -> Ordering {
        compare(&self.form, &other.form)
    }
}
